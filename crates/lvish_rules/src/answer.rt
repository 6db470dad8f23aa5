ghost use Rattle.std.specs.Prelude.{◌≡◌, slice_get, length, option_copied};

use lvish_lattice::Lattice;
use lvish_run::Report;
use std::marker::Model;

/// What an analysis computed: the state of each relation, and whether that is all that follows.
pub struct Answer<L: Lattice> {
    report: Report<L, L::Event>,
    is_whole: bool,
}

// Written out, so that it is proved once, and not at each exit of a function that owns one.
impl<L: Lattice> Drop for Answer<L> {
    fn drop(self) {
        let Answer {
            report: _,
            is_whole: _,
        } = self;
    }
}

impl<L: Lattice> Model for Answer<L> {
    ghost use Rattle.lvish_rules.specs.Answer.{AnswerView, states_of};

    ghost Value = { AnswerView L };

    ghost view = { λ a. record { states = states_of a.report.states; is_whole = a.is_whole; steps = a.report.steps } };
}

impl<L: Lattice> Answer<L> {
    ghost use Rattle.lvish_rules.specs.Answer.{states_of};

    /// What the report tells.
    pub(crate) fn new(report: Report<L, L::Event>, is_whole: bool) -> Answer<L>
        ensures { result ≡ record { states = states_of report.states; is_whole = is_whole; steps = report.steps } }
    {
        Answer { report, is_whole }
    }

    /// The state of the relation, `None` where there is no such relation.
    pub fn state(&self, relation: usize) -> Option<&L>
        ensures { option_copied result ≡ slice_get self.now.states relation }
    {
        match self.report.states.as_slice().get(relation) {
            Some(last) => Some(&last.content),
            None => None,
        }
    }

    /// The number of relations.
    pub fn relations(&self) -> usize
        ensures { result ≡ length self.now.states }
    {
        self.report.states.as_slice().len()
    }

    /// Whether the states are all that follows.
    pub fn is_whole(&self) -> bool
        ensures { result ≡ self.now.is_whole }
    {
        self.is_whole
    }

    /// How many steps it took.
    pub fn steps(&self) -> u64
        ensures { result ≡ self.now.steps }
    {
        self.report.steps
    }
}

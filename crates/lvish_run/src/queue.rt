//! Where the work of one worker waits.

ghost use Rattle.std.specs.Prelude.{◌≡◌, ◌++◌, ◌∷◌, ◌==◌, [], OnOk, true};

use lvish_board::{Asked, BoardBrand, StepWork, Ticket, Work};
use lvish_calculus::Program;
use lvish_lattice::Lattice;
use lvish_names::HandlerName;
use std::alloc::{AllocError, Global};
use std::collections::VecDeque;

/// The work that waits for one worker, which takes up what came last: the tasks that its steps woke, then
/// the other tasks, then the handlers.
pub struct Queue<P: Program, B: BoardBrand<P>> {
    woken: Vec<Asked<P, B>>,
    tickets: VecDeque<Ticket<P, B>>,
    hands: Vec<HandlerName<<P::Lat as Lattice>::Event>>,
}

// Written out, so that it is proved once, and not at each exit of a function that owns one.
impl<P: Program, B: BoardBrand<P>> Drop for Queue<P, B> {
    fn drop(self) {
        let Queue {
            woken: _,
            tickets: _,
            hands: _,
        } = self;
    }
}

impl<P: Program, B: BoardBrand<P>> Queue<P, B> {
    ghost use Rattle.std.specs.Prelude.{Option};
    ghost use Rattle.lvish_run.specs.Waiting.{IsAdded, IsLeft, IsPutOff, IsTaken};

    /// No work.
    pub fn new(alloc: Global) -> Queue<P, B> {
        Queue {
            woken: Vec::new(alloc),
            tickets: VecDeque::new(alloc),
            hands: Vec::new(alloc),
        }
    }

    /// Whether no work waits.
    pub fn is_empty(&self) -> bool {
        self.woken.is_empty() && self.tickets.is_empty() && self.hands.is_empty()
    }

    /// Adds a piece of work, which is taken up before others of its kind.
    ///
    /// # Errors
    ///
    /// Where there is no room for it.
    pub fn push(&mut self, work: Work<P, B>) -> Result<(), AllocError>
        ensures { OnOk result (IsAdded work self.old self.new) }
    {
        match work {
            Work::Stretch(ticket) => Ok(self.tickets.push_back(ticket)?),
            Work::Act(asked) => Ok(self.woken.push(asked)?),
            Work::Hand(handler) => Ok(self.hands.push(handler)?),
        }
    }

    /// Takes out the work that came last.
    #[inline(always)]
    pub fn pop(&mut self) -> Option<Work<P, B>>
        ensures { IsTaken result self.old self.new }
    {
        if let Some(asked) = self.woken.pop() {
            return Some(Work::Act(asked));
        }
        if let Some(ticket) = self.tickets.pop_back() {
            return Some(Work::Stretch(ticket));
        }
        let handler = self.hands.pop()?;
        Some(Work::Hand(handler))
    }

    /// Takes out the task that came first, else other work, for another worker.
    pub fn pop_oldest(&mut self) -> Option<Work<P, B>>
        ensures { IsTaken result self.old self.new }
    {
        match self.tickets.pop_front() {
            Some(ticket) => Some(Work::Stretch(ticket)),
            None => self.pop(),
        }
    }

    /// Leaves the work here that a step left. The task that the step made goes on first, and the acting
    /// one after it.
    ///
    /// # Errors
    ///
    /// Where there is no room for it.
    #[inline(never)]
    pub fn leave(&mut self, step_work: &mut StepWork<P, B>) -> Result<(), AllocError>
        ensures { OnOk result (IsLeft self.old step_work.old self.new step_work.new) }
    {
        self.woken.append(&mut step_work.woken)?;
        self.hands.append(&mut step_work.hands)?;
        if let Some(made) = step_work.made.take() {
            if let Some(own) = step_work.own.replace(made) {
                self.tickets.push_back(own)?;
            }
        }
        Ok(())
    }
}

/// Whether a step left more than the next ticket of its task.
#[inline(always)]
pub fn leaves_more<P: Program, B: BoardBrand<P>>(step_work: &StepWork<P, B>) -> bool {
    step_work.made.is_some() || !step_work.woken.is_empty() || !step_work.hands.is_empty()
}

ghost use Rattle.std.specs.Prelude.{◌≡◌, IfOk};
ghost use Rattle.lvish_trace.specs.PackedView.{index_of, is_hand};

use std::alloc::AllocError;
use std::marker::Model;

/// A step, by the index of its task in the core.
#[derive(Clone, Copy, PartialEq, Eq)]
pub enum Step {
    /// The task that acts.
    Act(usize),
    /// The task that a handing starts.
    Hand(usize),
}

impl Step {
    /// The index of its task.
    pub fn index(self) -> usize
        ensures { result ≡ index_of self }
    {
        match self {
            Step::Act(index) | Step::Hand(index) => index,
        }
    }

    /// Whether a handing starts the task.
    #[inline(always)]
    fn is_hand(self) -> bool
        ensures { result ≡ is_hand self }
    {
        matches!(self, Step::Hand(_))
    }
}

/// A step of a run, and the worker that made it.
///
/// A trace has one for each step, so it takes eight bytes.
#[derive(Clone, Copy)]
pub struct PackedStep {
    index: u32,
    worker: u16,
    hands: bool,
}

impl Model for PackedStep {
    ghost use Rattle.lvish_trace.specs.PackedView.{PackedView, index_of, is_hand, step_at, index_back, hand_back};

    ghost Value = { PackedView };

    ghost view = { λ n. record { worker = n.worker; step = step_at n.hands n.index } };

    ghost inverse = { λ v. record { index = index_of v.step; worker = v.worker; hands = is_hand v.step } };

    ghost inverse_ok = { λ n h i. record { index = index_back n.hands n.index i; worker = n.worker; hands = hand_back n.hands n.index i } };
}

impl PackedStep {
    /// The step of a worker.
    ///
    /// # Errors
    ///
    /// Where there is no room for numbers as large: for a worker above 65,535, or an index above
    /// 4,294,967,295.
    #[inline(always)]
    pub fn new(worker: usize, step: Step) -> Result<PackedStep, AllocError>
        ensures { IfOk result (λ n. n ≡ record { worker = worker; step = step }) }
    {
        let index = step.index();
        if worker > u16::MAX as usize || index > u32::MAX as usize {
            return Err(AllocError);
        }
        Ok(PackedStep {
            index: index as u32,
            worker: worker as u16,
            hands: step.is_hand(),
        })
    }

    /// The worker that made the step.
    #[inline(always)]
    pub fn worker(self) -> usize
        ensures { result ≡ self.worker }
    {
        self.worker as usize
    }

    /// The step.
    #[inline(always)]
    pub fn step(self) -> Step
        ensures { result ≡ self.step }
    {
        let index = self.index as usize;
        if self.hands {
            Step::Hand(index)
        } else {
            Step::Act(index)
        }
    }
}

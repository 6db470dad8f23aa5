ghost use Rattle.std.specs.Prelude.{◌≡◌};

use lvish_calculus::ErrorKind;
use lvish_names::TaskName;
use std::alloc::AllocError;

/// The error that a run met: its kind, its variable if it has one, and the task that met it.
#[derive(Debug)]
pub struct RunError<E> {
    pub kind: ErrorKind,
    pub variable: Option<usize>,
    pub task: TaskName<E>,
}

// Written out, so that it is proved once, and not at each exit of a function that owns one.
impl<E: Drop> Drop for RunError<E> {
    fn drop(self) {
        let RunError {
            kind: _,
            variable: _,
            task: _,
        } = self;
    }
}

/// What a step led to.
#[derive(Clone, Copy, Debug, PartialEq, Eq)]
pub enum Stepped {
    /// A configuration without an error.
    Done,
    /// The error of the run.
    Error(ErrorKind),
}

/// Why a step wasn't made.
#[derive(Clone, Copy, Debug, PartialEq, Eq)]
pub enum StepFault {
    /// The label isn't enabled, or hands another event than the log's next.
    NotEnabled,
    /// 4,294,967,295 steps were made.
    Full,
    /// A growth was refused.
    Memory,
}

impl From<AllocError> for StepFault {
    ghost use Rattle.std.specs.Prelude.{◌≡◌};
    ghost use Rattle.lvish_core.specs.declared.fault.StepFault.TheVariants.{Memory};

    ghost from_gives = { λ _ e. e ≡ Memory };

    fn from(_refused: AllocError) -> StepFault {
        StepFault::Memory
    }
}

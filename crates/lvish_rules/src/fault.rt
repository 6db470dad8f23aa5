ghost use Rattle.std.specs.Prelude.{◌≡◌};

use lvish_calculus::ErrorKind;
use std::alloc::AllocError;
use thiserror::Error;

/// Why an analysis has no answer.
#[derive(Clone, Copy, Debug, PartialEq, Eq, Error)]
pub enum SolveFault {
    /// A run of it is in error: what follows joins to top (`Conflict`), or watches make one another
    /// past a depth of 64 (`Deep`).
    #[error("what follows from the rules is in error")]
    Erring(ErrorKind),
    /// A growth was refused.
    #[error("out of memory")]
    Memory,
    /// A thread couldn't be started.
    #[error("no thread could be started")]
    NoThread,
}

impl From<AllocError> for SolveFault {
    ghost use Rattle.lvish_rules.specs.declared.fault.SolveFault.TheVariants.{Memory};

    ghost from_gives = { λ _ e. e ≡ Memory };

    fn from(_refused: AllocError) -> SolveFault {
        SolveFault::Memory
    }
}

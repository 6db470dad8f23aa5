use lvish_calculus::ErrorKind;
use lvish_rules::SolveFault;
use std::alloc::AllocError;
use thiserror::Error;

/// Why there is no answer.
#[derive(Clone, Copy, Debug, PartialEq, Eq, Error)]
pub enum ReachFault {
    /// The line of this number, from 1, has one name alone: it is the first of this kind.
    #[error("line {0}: expected a second name")]
    Alone(usize),
    /// No line has a name.
    #[error("expected a line of two names")]
    Empty,
    /// The analysis is in error, which no run of it is.
    #[error("the analysis is in error")]
    Erring(ErrorKind),
    /// A growth was refused.
    #[error("out of memory")]
    Memory,
    /// A thread couldn't be started.
    #[error("no thread could be started")]
    NoThread,
}

impl From<AllocError> for ReachFault {
    ghost use Rattle.std.specs.Prelude.{◌≡◌};
    ghost use Rattle.lvish_reaching.specs.declared.fault.ReachFault.TheVariants.{Memory};

    ghost from_gives = { λ _ e. e ≡ Memory };

    fn from(_refused: AllocError) -> ReachFault {
        ReachFault::Memory
    }
}

impl From<SolveFault> for ReachFault {
    ghost use Rattle.lvish_reaching.specs.Faults.{IsOfRun};

    ghost from_gives = { λ _ e. IsOfRun e };

    fn from(fault: SolveFault) -> ReachFault {
        match fault {
            SolveFault::Erring(kind) => ReachFault::Erring(kind),
            SolveFault::Memory => ReachFault::Memory,
            SolveFault::NoThread => ReachFault::NoThread,
        }
    }
}

use lvish_calculus::ErrorKind;
use lvish_rules::SolveFault;
use std::alloc::AllocError;
use thiserror::Error;

/// What was expected on a line.
#[derive(Clone, Copy, Debug, PartialEq, Eq, Error)]
pub enum Expected {
    #[error("`address`, `copy`, `load` or `store`")]
    AKind,
    #[error("two names")]
    TwoNames,
}

/// Why there is no answer.
#[derive(Clone, Copy, Debug, PartialEq, Eq, Error)]
pub enum PointFault {
    /// The line of this number, from 1, lacks this: it is the first that lacks anything.
    #[error("line {0}: expected {1}")]
    Line(usize, Expected),
    /// No line states a fact.
    #[error("expected a fact, found none")]
    Empty,
    /// The analysis is in error, which no run of it is.
    #[error("the analysis is in error")]
    Erring(ErrorKind),
    /// A growth was refused.
    #[error("out of memory")]
    Memory,
    /// A thread couldn't be started.
    #[error("no thread could be started")]
    NoThread,
}

impl From<AllocError> for PointFault {
    ghost use Rattle.std.specs.Prelude.{◌≡◌};
    ghost use Rattle.lvish_pointing.specs.declared.fault.PointFault.TheVariants.{Memory};

    ghost from_gives = { λ _ e. e ≡ Memory };

    fn from(_refused: AllocError) -> PointFault {
        PointFault::Memory
    }
}

impl From<SolveFault> for PointFault {
    ghost use Rattle.lvish_pointing.specs.Faults.{IsOfRun};

    ghost from_gives = { λ _ e. IsOfRun e };

    fn from(fault: SolveFault) -> PointFault {
        match fault {
            SolveFault::Erring(kind) => PointFault::Erring(kind),
            SolveFault::Memory => PointFault::Memory,
            SolveFault::NoThread => PointFault::NoThread,
        }
    }
}

ghost use Rattle.std.specs.Prelude.{◌≡◌};

use std::alloc::AllocError;
use thiserror::Error;

/// Why a run by workers gave no report; where several hold, the first.
#[derive(Clone, Copy, PartialEq, Eq, Debug, Drop, Error)]
pub enum RunFault {
    /// A thread couldn't be started.
    #[error("nothread")]
    NoThread,
    /// A growth was refused, or a push on a deque.
    #[error("memory")]
    Memory,
    /// A gate's `idle` answered false.
    #[error("stopped")]
    Stopped,
    /// A worker's own list of steps differs from the trace, or the board isn't over.
    #[error("mixed")]
    Mixed,
}

impl From<AllocError> for RunFault {
    ghost use Rattle.lvish_run.specs.declared.fault.RunFault.TheVariants.{Memory};

    ghost from_gives = { λ refused fault. fault ≡ Memory };

    fn from(_refused: AllocError) -> RunFault {
        RunFault::Memory
    }
}

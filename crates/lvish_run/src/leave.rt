ghost use Rattle.std.specs.Prelude.{◌≡◌, ◌⊎◌, max};
ghost use Rattle.lvish_run.specs.Crew.{fault_of, hindrance};

use crate::fault::RunFault;

/// Why a worker leaves, or isn't there.
#[derive(Clone, Copy)]
pub enum Leave {
    /// The board is over.
    Over,
    /// Another number of workers is to go on, or another worker has left.
    Others,
    /// A gate's `idle` answered false.
    Stopped,
    /// A growth was refused, or a push on a deque.
    Memory,
    /// Its thread couldn't be started.
    Missing,
}

impl Leave {
    /// How much it hinders the run.
    fn hindrance(self) -> u8
        ensures { result ≡ hindrance self }
    {
        match self {
            Leave::Over => 0,
            Leave::Others => 1,
            Leave::Stopped => 2,
            Leave::Memory => 3,
            Leave::Missing => 4,
        }
    }

    /// What hinders the run more, of two workers.
    pub fn or_worse(self, other: Leave) -> Leave
        ensures one { (result ≡ self) ⊎ (result ≡ other) }
        ensures most { hindrance result ≡ max (hindrance self) (hindrance other) }
    {
        if other.hindrance() > self.hindrance() {
            other
        } else {
            self
        }
    }

    /// Why the run can't go on, if this is so.
    pub fn fault(self) -> Option<RunFault>
        ensures { result ≡ fault_of self }
    {
        match self {
            Leave::Over | Leave::Others => None,
            Leave::Stopped => Some(RunFault::Stopped),
            Leave::Memory => Some(RunFault::Memory),
            Leave::Missing => Some(RunFault::NoThread),
        }
    }
}

ghost use Rattle.std.specs.Prelude.{◌≡◌};
ghost use Rattle.lvish_calculus.specs.Calculus.{Live};
ghost use Rattle.lvish_core.specs.Tasks.{standing};

/// What runs under a task's name.
pub enum Stage<L> {
    /// A task with its numbers of forks, added handlers and puts.
    Live {
        local: L,
        forks: u64,
        adds: u64,
        puts: u64,
    },
    Ended,
}

// Written out, so that it is proved once, and not at each exit of a function that owns one.
impl<L: Drop> Drop for Stage<L> {
    fn drop(self) {
        match self {
            Stage::Live {
                local: _,
                forks: _,
                adds: _,
                puts: _,
            } => {}
            Stage::Ended => {}
        }
    }
}

impl<L> Stage<L> {
    /// A task that has made no step.
    pub(crate) fn started(local: L) -> Self
        ensures { standing result ≡ Live local 0 0 0 }
    {
        Stage::Live {
            local,
            forks: 0,
            adds: 0,
            puts: 0,
        }
    }

    /// A task that goes on with these numbers.
    pub(crate) fn live(local: L, numbers: TaskNumbers) -> Self
        ensures { standing result ≡ Live local numbers.forks numbers.adds numbers.puts }
    {
        Stage::Live {
            local,
            forks: numbers.forks,
            adds: numbers.adds,
            puts: numbers.puts,
        }
    }
}

/// A task's index in the table of its core, how many tasks it forked, how many handlers it added, and
/// how many puts it made.
#[derive(Clone, Copy, PartialEq, Eq)]
pub struct TaskNumbers {
    pub index: usize,
    pub forks: u64,
    pub adds: u64,
    pub puts: u64,
}

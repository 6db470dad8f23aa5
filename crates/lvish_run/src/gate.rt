use lvish_lattice::Plain;
use lvish_names::TaskName;

/// What a worker passes before each stretch of a task and, in a crew, on each idle turn, with no lock held.
pub trait Gate {
    ghost use Rattle.std.specs.Prelude.{◌≡◌, Bool, true};

    /// Whether `idle` always answers true.
    ghost patient: { Bool };

    /// Called by the worker before it runs local statements of the task.
    fn enter<E: Plain>(&self, worker: usize, task: &TaskName<E>);

    /// Called by a worker of a crew when it has found no work. `false` stops the run.
    fn idle(&self, worker: usize) -> bool
        ensures { patient ≡ true → result ≡ true };

    /// Whether a call may hold its worker until another one is there: then all workers are, from the first
    /// turn on.
    fn holds(&self) -> bool {
        true
    }
}

/// A gate that never stops.
#[derive(Drop)]
pub struct Open;

impl Gate for Open {
    ghost use Rattle.std.specs.Prelude.{true};

    ghost patient = { true };

    fn enter<E: Plain>(&self, _worker: usize, _task: &TaskName<E>) {}

    fn idle(&self, _worker: usize) -> bool {
        true
    }

    fn holds(&self) -> bool {
        false
    }
}

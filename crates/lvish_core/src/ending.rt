//! How a task's step ends where it is no error.

ghost use Rattle.std.specs.Prelude.{◌≡◌, ◌+◌, ◌<◌, Some};
ghost use Rattle.lvish_names.specs.Names.{Name};
ghost use Rattle.lvish_core.specs.Tasks.{IsAt, Sets, standing};

use crate::limits::MOST_PROGRAM_STEPS;
use crate::stage::Stage;
use crate::tasks::Tasks;
use crate::touched::Touched;
use lvish_lattice::Plain;
use std::hash::Hash;

/// The acting task goes on, or has ended; the step is counted, and what it concerned is recorded.
#[inline(always)]
pub(crate) fn close<E: Plain + Hash, L: Drop>(
    tasks: &mut Tasks<E, L>,
    steps: &mut u64,
    touched: &mut Option<Touched>,
    index: usize,
    stage: Stage<L>,
    concerned: Touched,
)
    requires room { steps.old < MOST_PROGRAM_STEPS }
    ensures tasks { (t : Name E) → IsAt tasks.old index t → Sets E.eq tasks.old t (standing stage) tasks.new }
    ensures steps { steps.new ≡ steps.old + 1 }
    ensures touched { touched.new ≡ Some concerned }
{
    tasks.replace_at(index, stage);
    *steps += 1;
    *touched = Some(concerned);
}

//! A get.

ghost use Rattle.std.specs.Prelude.{◌≡◌, ◌≢◌, ◌<◌, ◌⊎◌, IfErr, Some};
ghost use Rattle.lvish_calculus.specs.declared.request.Request.TheVariants.{Get};
ghost use Rattle.lvish_core.specs.Acts.{IsAsked, ActsIfReady};
ghost use Rattle.lvish_core.specs.Tasks.{IsAt};

use super::Core;
use crate::fault::{StepFault, Stepped};
use crate::limits::MOST_PROGRAM_STEPS;
use crate::moved::Moved;
use crate::stage::TaskNumbers;
use lvish_calculus::{Meaning, Program, Reply};
use lvish_lattice::{Lattice, Reads};
use lvish_names::TaskName;
use std::alloc::Global;

impl<'p, P: Program> Core<'p, P> {
    /// Gives the task the answer of its read, where it has one; else its local state is left in its
    /// place.
    pub(super) fn get(
        &mut self,
        alloc: Global,
        name: &TaskName<<P::Lat as Lattice>::Event>,
        at: P::Local,
        numbers: TaskNumbers,
        variable: usize,
        read: &<P::Lat as Reads>::Read,
        left: &mut Option<P::Local>,
    ) -> Result<(Stepped, Moved<<P::Lat as Lattice>::Event, P::Local>), StepFault>
        requires room { self.old.steps < MOST_PROGRAM_STEPS }
        requires asked { IsAsked (⟦<P as Meaning>⟧.machine self.old.program) self.old name.now at numbers.forks numbers.adds numbers.puts (Get variable read.now) }
        requires there { IsAt self.old.table.tasks numbers.index name.now }
        ensures acts { ActsIfReady (⟦<P as Meaning>⟧.machine self.old.program) self.old name.now (Get variable read.now) self.new result }
        ensures left { (left.new ≡ Some at) ⊎ (left.new ≡ left.old) }
        ensures unused { IfErr result (λ e. e ≢ StepFault.Memory → left.new ≡ Some at) }
    {
        match self.variables[variable].read(read) {
            Some(answer) => self.go_on(alloc, name, at, numbers, Reply::Answer(answer)),
            None => {
                *left = Some(at);
                Err(StepFault::NotEnabled)
            }
        }
    }
}

//! A freeze.

ghost use Rattle.std.specs.Prelude.{◌<◌, ℕ, List};
ghost use Rattle.lvish_calculus.specs.declared.request.Request.TheVariants.{Freeze};
ghost use Rattle.lvish_core.specs.Acts.{IsActing, Acts};
ghost use Rattle.lvish_core.specs.Tasks.{IsAt};

use super::Core;
use crate::beside::{freeze_at, list_freeze};
use crate::ending::close;
use crate::fault::{StepFault, Stepped};
use crate::limits::MOST_PROGRAM_STEPS;
use crate::moved::Moved;
use crate::resumed::resumed_on;
use crate::stage::TaskNumbers;
use crate::touched::Touched;
use lvish_calculus::laws::lawful;
use lvish_calculus::{Meaning, Program};
use lvish_lattice::Lattice;
use lvish_names::TaskName;
use lvish_picture::laws::{counts_kept, freeze_kept};
use std::alloc::Global;

impl<'p, P: Program> Core<'p, P> {
    /// Marks the variable, and gives the task its state.
    pub(super) fn freeze(
        &mut self,
        alloc: Global,
        name: &TaskName<<P::Lat as Lattice>::Event>,
        at: P::Local,
        numbers: TaskNumbers,
        variable: usize,
    ) -> Result<(Stepped, Moved<<P::Lat as Lattice>::Event, P::Local>), StepFault>
        requires room { self.old.steps < MOST_PROGRAM_STEPS }
        requires acting { (pools : List ℕ) × IsActing (⟦<P as Meaning>⟧.machine self.old.program) self.old name.now at numbers.forks numbers.adds numbers.puts (Freeze variable pools) }
        requires there { IsAt self.old.table.tasks numbers.index name.now }
        ensures { Acts (⟦<P as Meaning>⟧.machine self.old.program) self.old name.now self.new result }
    {
        lawful::<P>();
        freeze_kept::<P>();
        counts_kept::<P>();
        let to_freeze = &self.variables[variable];
        let (stage, own) = resumed_on(self.program, alloc, at, to_freeze.state(), numbers)?;
        list_freeze(&mut self.freezes, to_freeze, variable)?;
        freeze_at(&mut self.variables, variable);
        close(
            &mut self.tasks,
            &mut self.steps,
            &mut self.touched,
            numbers.index,
            stage,
            Touched::Other,
        );
        Ok((Stepped::Done, Moved::own(own)))
    }
}

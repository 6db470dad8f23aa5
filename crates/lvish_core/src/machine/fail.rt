//! A step that is an error.

ghost use Rattle.std.specs.Prelude.{◌<◌};
ghost use Rattle.lvish_core.specs.Acts.{IsFailing, Acts};

use super::Core;
use crate::fault::{RunError, StepFault, Stepped};
use crate::limits::MOST_PROGRAM_STEPS;
use crate::moved::Moved;
use crate::touched::Touched;
use lvish_calculus::laws::lawful;
use lvish_calculus::{ErrorKind, Meaning, Program};
use lvish_lattice::Lattice;
use lvish_names::TaskName;
use lvish_picture::laws::errors_are_steps;

impl<'p, P: Program> Core<'p, P> {
    /// Makes the step that gives an error.
    pub(super) fn fail(
        &mut self,
        name: &TaskName<<P::Lat as Lattice>::Event>,
        kind: ErrorKind,
        variable: Option<usize>,
    ) -> Result<(Stepped, Moved<<P::Lat as Lattice>::Event, P::Local>), StepFault>
        requires room { self.old.steps < MOST_PROGRAM_STEPS }
        requires failing { IsFailing (⟦<P as Meaning>⟧.machine self.old.program) self.old name.now kind variable }
        ensures { Acts (⟦<P as Meaning>⟧.machine self.old.program) self.old name.now self.new result }
    {
        lawful::<P>();
        errors_are_steps::<P>();
        let task = name.copy()?;
        self.fault = Some(RunError {
            kind,
            variable,
            task,
        });
        self.steps += 1;
        self.touched = Some(Touched::Other);
        Ok((Stepped::Error(kind), Moved::nothing()))
    }
}

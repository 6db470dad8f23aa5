//! A step that changes nothing but the task's local state.

ghost use Rattle.std.specs.Prelude.{◌<◌};
ghost use Rattle.lvish_core.specs.Acts.{IsReplied, Acts};
ghost use Rattle.lvish_core.specs.Tasks.{IsAt};

use super::Core;
use crate::ending::close;
use crate::fault::{StepFault, Stepped};
use crate::limits::MOST_PROGRAM_STEPS;
use crate::moved::Moved;
use crate::resumed::resumed;
use crate::stage::TaskNumbers;
use crate::touched::Touched;
use lvish_calculus::laws::lawful;
use lvish_calculus::{Meaning, Program, Reply};
use lvish_lattice::{Lattice, Reads};
use lvish_names::TaskName;
use lvish_picture::laws::{counts_follow, counts_kept, plain_kept};
use std::alloc::Global;

impl<'p, P: Program> Core<'p, P> {
    /// Takes the reply, and goes on.
    pub(super) fn go_on(
        &mut self,
        alloc: Global,
        name: &TaskName<<P::Lat as Lattice>::Event>,
        at: P::Local,
        numbers: TaskNumbers,
        reply: Reply<P::Lat, <P::Lat as Reads>::Answer>,
    ) -> Result<(Stepped, Moved<<P::Lat as Lattice>::Event, P::Local>), StepFault>
        requires room { self.old.steps < MOST_PROGRAM_STEPS }
        requires replied { IsReplied (⟦<P as Meaning>⟧.machine self.old.program) self.old name.now at numbers.forks numbers.adds numbers.puts reply }
        requires there { IsAt self.old.table.tasks numbers.index name.now }
        ensures { Acts (⟦<P as Meaning>⟧.machine self.old.program) self.old name.now self.new result }
    {
        lawful::<P>();
        plain_kept::<P>();
        counts_kept::<P>();
        counts_follow::<P>();
        let (stage, own) = resumed(self.program, alloc, at, reply, numbers)?;
        close(
            &mut self.tasks,
            &mut self.steps,
            &mut self.touched,
            numbers.index,
            stage,
            Touched::Other,
        );
        Ok((Stepped::Done, Moved::own(own)))
    }
}

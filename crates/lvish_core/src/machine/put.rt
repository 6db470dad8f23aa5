//! A put.

ghost use Rattle.std.specs.Prelude.{◌<◌};
ghost use Rattle.lvish_calculus.specs.declared.request.Request.TheVariants.{Put};
ghost use Rattle.lvish_core.specs.Acts.{IsActing, IsRefused, Acts};
ghost use Rattle.lvish_core.specs.Tasks.{IsAt};

use super::Core;
use crate::beside::put_at;
use crate::ending::close;
use crate::fault::{StepFault, Stepped};
use crate::limits::MOST_PROGRAM_STEPS;
use crate::moved::Moved;
use crate::resumed::resumed;
use crate::stage::TaskNumbers;
use crate::touched::Touched;
use lvish_calculus::laws::lawful;
use lvish_calculus::{ErrorKind, Meaning, Program, Reply};
use lvish_lattice::Lattice;
use lvish_names::TaskName;
use lvish_picture::laws::{counts_kept, put_kept};
use lvish_variable::PutFault;
use std::alloc::Global;

impl<'p, P: Program> Core<'p, P> {
    /// Joins the state to the variable's, or fails where the variable refuses it.
    pub(super) fn put(
        &mut self,
        alloc: Global,
        name: &TaskName<<P::Lat as Lattice>::Event>,
        at: P::Local,
        numbers: TaskNumbers,
        variable: usize,
        state: &P::Lat,
    ) -> Result<(Stepped, Moved<<P::Lat as Lattice>::Event, P::Local>), StepFault>
        requires room { self.old.steps < MOST_PROGRAM_STEPS }
        requires acting { IsActing (⟦<P as Meaning>⟧.machine self.old.program) self.old name.now at numbers.forks numbers.adds numbers.puts (Put variable state.now) }
        requires there { IsAt self.old.table.tasks numbers.index name.now }
        ensures { Acts (⟦<P as Meaning>⟧.machine self.old.program) self.old name.now self.new result }
    {
        lawful::<P>();
        put_kept::<P>();
        counts_kept::<P>();
        let program = self.program;
        let puts = numbers.puts + 1;
        let next = TaskNumbers { puts, ..numbers };
        let (stage, own) = resumed(program, alloc, at, Reply::Done, next)?;
        if let Err(refused) = put_at(&mut self.variables, alloc, variable, name, puts, state) {
            return self.refuse(name, variable, refused);
        }
        let on = Touched::Put(variable);
        close(
            &mut self.tasks,
            &mut self.steps,
            &mut self.touched,
            numbers.index,
            stage,
            on,
        );
        Ok((Stepped::Done, Moved::own(own)))
    }

    /// Makes the step of a put that the variable refuses, unless that is for want of memory.
    fn refuse(
        &mut self,
        name: &TaskName<<P::Lat as Lattice>::Event>,
        variable: usize,
        refused: PutFault,
    ) -> Result<(Stepped, Moved<<P::Lat as Lattice>::Event, P::Local>), StepFault>
        requires room { self.old.steps < MOST_PROGRAM_STEPS }
        requires refused { IsRefused (⟦<P as Meaning>⟧.machine self.old.program) self.old name.now variable refused }
        ensures { Acts (⟦<P as Meaning>⟧.machine self.old.program) self.old name.now self.new result }
    {
        let kind = match refused {
            PutFault::Conflict => ErrorKind::Conflict,
            PutFault::Frozen => ErrorKind::Frozen,
            PutFault::Memory => return Err(StepFault::Memory),
        };
        self.fail(name, kind, Some(variable))
    }
}

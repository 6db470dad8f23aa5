//! A fork.

ghost use Rattle.std.specs.Prelude.{◌<◌};
ghost use Rattle.lvish_calculus.specs.declared.request.Request.TheVariants.{Fork};
ghost use Rattle.lvish_core.specs.Acts.{IsActing, Acts};
ghost use Rattle.lvish_core.specs.Tasks.{IsAt};

use super::Core;
use crate::beside::start_at;
use crate::child::child_of;
use crate::ending::close;
use crate::fault::{StepFault, Stepped};
use crate::limits::MOST_PROGRAM_STEPS;
use crate::moved::Moved;
use crate::resumed::resumed;
use crate::stage::TaskNumbers;
use crate::touched::Touched;
use lvish_calculus::laws::lawful;
use lvish_calculus::{ErrorKind, Meaning, Program, Reply};
use lvish_lattice::Lattice;
use lvish_names::TaskName;
use lvish_picture::laws::{counts_follow, counts_kept, names_are_new, plain_kept, running_counts};
use std::alloc::Global;

impl<'p, P: Program> Core<'p, P> {
    /// Adds the task's next child, in its pool, or fails where its name would be too long.
    pub(super) fn fork(
        &mut self,
        alloc: Global,
        name: &TaskName<<P::Lat as Lattice>::Event>,
        at: P::Local,
        numbers: TaskNumbers,
        child: &P::Local,
    ) -> Result<(Stepped, Moved<<P::Lat as Lattice>::Event, P::Local>), StepFault>
        requires room { self.old.steps < MOST_PROGRAM_STEPS }
        requires acting { IsActing (⟦<P as Meaning>⟧.machine self.old.program) self.old name.now at numbers.forks numbers.adds numbers.puts (Fork child.now) }
        requires there { IsAt self.old.table.tasks numbers.index name.now }
        ensures { Acts (⟦<P as Meaning>⟧.machine self.old.program) self.old name.now self.new result }
    {
        lawful::<P>();
        plain_kept::<P>();
        counts_kept::<P>();
        counts_follow::<P>();
        names_are_new::<P>();
        running_counts::<P>();
        let place = self.place_of(name)?;
        let forks = numbers.forks + 1;
        let Some(started) = child_of(self.program, alloc, name, forks, child)? else {
            return self.fail(name, ErrorKind::Deep, None);
        };
        let next = TaskNumbers { forks, ..numbers };
        let (stage, own) = resumed(self.program, alloc, at, Reply::Done, next)?;
        self.tasks.push(started.name, started.stage)?;
        start_at(&mut self.handlers, place);
        self.running += 1;
        close(
            &mut self.tasks,
            &mut self.steps,
            &mut self.touched,
            numbers.index,
            stage,
            Touched::Other,
        );
        let moved = Moved {
            own: Some(own),
            made: Some(started.made),
            added: None,
        };
        Ok((Stepped::Done, moved))
    }
}

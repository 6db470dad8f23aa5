//! The end of a task.

ghost use Rattle.std.specs.Prelude.{◌≡◌, ◌<◌, Some};
ghost use Rattle.lvish_calculus.specs.declared.request.Request.TheVariants.{End};
ghost use Rattle.lvish_core.specs.Acts.{IsActing, Acts};
ghost use Rattle.lvish_core.specs.Tasks.{IsAt};

use super::Core;
use crate::beside::end_at;
use crate::ending::close;
use crate::fault::{StepFault, Stepped};
use crate::limits::MOST_PROGRAM_STEPS;
use crate::moved::Moved;
use crate::stage::{Stage, TaskNumbers};
use crate::touched::Touched;
use lvish_calculus::laws::lawful;
use lvish_calculus::{Meaning, Program};
use lvish_lattice::Lattice;
use lvish_names::TaskName;
use lvish_picture::laws::{counts_follow, counts_kept, plain_kept, running_counts};

impl<'p, P: Program> Core<'p, P> {
    /// Ends the task. Its local state is left in its place.
    pub(super) fn end(
        &mut self,
        name: &TaskName<<P::Lat as Lattice>::Event>,
        at: P::Local,
        numbers: TaskNumbers,
        left: &mut Option<P::Local>,
    ) -> Result<(Stepped, Moved<<P::Lat as Lattice>::Event, P::Local>), StepFault>
        requires room { self.old.steps < MOST_PROGRAM_STEPS }
        requires acting { IsActing (⟦<P as Meaning>⟧.machine self.old.program) self.old name.now at numbers.forks numbers.adds numbers.puts End }
        requires there { IsAt self.old.table.tasks numbers.index name.now }
        ensures acts { Acts (⟦<P as Meaning>⟧.machine self.old.program) self.old name.now self.new result }
        ensures left { left.new ≡ Some at }
    {
        *left = Some(at);
        lawful::<P>();
        plain_kept::<P>();
        counts_kept::<P>();
        counts_follow::<P>();
        running_counts::<P>();
        let place = self.place_of(name)?;
        end_at(&mut self.handlers, place);
        self.running -= 1;
        let on = Touched::ended_in(place);
        close(
            &mut self.tasks,
            &mut self.steps,
            &mut self.touched,
            numbers.index,
            Stage::Ended,
            on,
        );
        Ok((Stepped::Done, Moved::nothing()))
    }
}

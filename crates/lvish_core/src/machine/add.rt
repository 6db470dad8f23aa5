//! The adding of a handler.

ghost use Rattle.std.specs.Prelude.{◌≡◌, ◌<◌};
ghost use Rattle.lvish_calculus.specs.declared.request.Request.TheVariants.{Add};
ghost use Rattle.lvish_core.specs.Acts.{IsActing, IsSeating, Acts};
ghost use Rattle.lvish_core.specs.Tasks.{IsAt};
ghost use Rattle.lvish_core.specs.Core.{state};

use super::Core;
use crate::ending::close;
use crate::fault::{StepFault, Stepped};
use crate::handler_place::HandlerPlace;
use crate::limits::MOST_PROGRAM_STEPS;
use crate::moved::Moved;
use crate::resumed::resumed;
use crate::seat::seat;
use crate::stage::TaskNumbers;
use crate::touched::Touched;
use lvish_calculus::laws::lawful;
use lvish_calculus::{ErrorKind, Meaning, Program, Reply};
use lvish_lattice::Lattice;
use lvish_names::{HandlerName, NameFault, TaskName};
use lvish_picture::laws::{add_kept, counts_kept, handlers_are_held, names_are_new};
use std::alloc::Global;

impl<'p, P: Program> Core<'p, P> {
    /// Adds a handler to the pool, or fails where its name would be too long or its variable is
    /// frozen.
    pub(super) fn add(
        &mut self,
        alloc: Global,
        name: &TaskName<<P::Lat as Lattice>::Event>,
        at: P::Local,
        numbers: TaskNumbers,
        pool: usize,
        procedure: usize,
    ) -> Result<(Stepped, Moved<<P::Lat as Lattice>::Event, P::Local>), StepFault>
        requires room { self.old.steps < MOST_PROGRAM_STEPS }
        requires acting { IsActing (⟦<P as Meaning>⟧.machine self.old.program) self.old name.now at numbers.forks numbers.adds numbers.puts (Add pool procedure) }
        requires there { IsAt self.old.table.tasks numbers.index name.now }
        ensures { Acts (⟦<P as Meaning>⟧.machine self.old.program) self.old name.now self.new result }
    {
        lawful::<P>();
        let program = self.program;
        let handler = match HandlerName::new(name, numbers.adds + 1) {
            Ok(handler) => handler,
            Err(NameFault::Deep) => return self.fail(name, ErrorKind::Deep, None),
            Err(NameFault::Memory) => return Err(StepFault::Memory),
        };
        let Some(variable) = program.pool_variable(pool) else {
            unreachable!("a task names pools that there are")
        };
        if self.is_late(variable) {
            return self.fail(name, ErrorKind::Late, Some(variable));
        }
        let place = HandlerPlace::new(variable, pool, procedure);
        self.add_on(alloc, name, at, numbers, handler, place)
    }

    /// Adds the handler at its place, on a variable that isn't frozen.
    fn add_on(
        &mut self,
        alloc: Global,
        name: &TaskName<<P::Lat as Lattice>::Event>,
        at: P::Local,
        numbers: TaskNumbers,
        handler: HandlerName<<P::Lat as Lattice>::Event>,
        place: HandlerPlace,
    ) -> Result<(Stepped, Moved<<P::Lat as Lattice>::Event, P::Local>), StepFault>
        requires room { self.old.steps < MOST_PROGRAM_STEPS }
        requires acting { IsActing (⟦<P as Meaning>⟧.machine self.old.program) self.old name.now at numbers.forks numbers.adds numbers.puts (Add place.pool place.procedure) }
        requires there { IsAt self.old.table.tasks numbers.index name.now }
        requires seated { IsSeating (⟦<P as Meaning>⟧.machine self.old.program) self.old name.now numbers.adds handler place }
        ensures { Acts (⟦<P as Meaning>⟧.machine self.old.program) self.old name.now self.new result }
    {
        lawful::<P>();
        add_kept::<P>();
        counts_kept::<P>();
        names_are_new::<P>();
        handlers_are_held::<P>();
        let adds = handler.number();
        let next = TaskNumbers { adds, ..numbers };
        let (stage, own) = resumed(self.program, alloc, at, Reply::Done, next)?;
        let on = &self.variables[place.variable];
        let added = seat(
            &mut self.places,
            &mut self.handlers,
            alloc,
            on,
            handler,
            place,
        )?;
        close(
            &mut self.tasks,
            &mut self.steps,
            &mut self.touched,
            numbers.index,
            stage,
            Touched::Other,
        );
        Ok((Stepped::Done, Moved::added(own, added)))
    }

    /// Whether a handler comes too late to the variable, which is frozen.
    fn is_late(&self, variable: usize) -> bool
        ensures { result ≡ (state (⟦<P as Meaning>⟧.machine self.now.program) self.now).frozen variable }
    {
        match self.variables.get(variable) {
            Some(on) => on.is_frozen(),
            None => false,
        }
    }
}

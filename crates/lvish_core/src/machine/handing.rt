//! A handler's step.

ghost use Rattle.std.specs.Prelude.{◌≡◌, ◌<◌, IfOk, IfErr, MatchResult};
ghost use Rattle.lvish_core.specs.Beside.{IsPostedAt};
ghost use Rattle.lvish_core.specs.Handed.{IsHanded, IsNotHanded, IsHanding, Hands};

use super::Core;
use crate::beside::hand_at;
use crate::fault::{StepFault, Stepped};
use crate::handler_place::{HandlerPlace, HandlerSeat};
use crate::limits::MOST_PROGRAM_STEPS;
use crate::moved::{Made, Moved};
use crate::stage::Stage;
use crate::touched::Touched;
use lvish_calculus::laws::lawful;
use lvish_calculus::{Meaning, Program};
use lvish_lattice::Lattice;
use lvish_names::{HandlerName, TaskName};
use lvish_picture::laws::{
    counts_follow, counts_kept, hand_kept, handed_next, handlers_are_held, names_are_new,
    running_counts,
};
use std::alloc::Global;

impl<'p, P: Program> Core<'p, P> {
    /// Hands the handler the next event of its variable's log.
    ///
    /// # Errors
    ///
    /// `NotEnabled` where there is no such handler, where it was handed the whole log, or after an
    /// error; else `Full` where 4,294,967,295 steps were made; `Memory` where a growth was refused.
    /// The core is as it was.
    #[inline(always)]
    pub fn step_hand(
        &mut self,
        alloc: Global,
        name: &HandlerName<<P::Lat as Lattice>::Event>,
    ) -> Result<(Stepped, Moved<<P::Lat as Lattice>::Event, P::Local>), StepFault>
        // With the event that comes next.
        ensures handed { IfOk result (λ s. IsHanded (⟦<P as Meaning>⟧.machine self.old.program) self.old name.now self.new s.0 s.1) }
        ensures refused { IfErr result (λ e. IsNotHanded (⟦<P as Meaning>⟧.machine self.old.program) self.old name.now e) }
        ensures kept { IfErr result (λ e. self.new ≡ self.old) }
    {
        lawful::<P>();
        handed_next::<P>();
        handlers_are_held::<P>();
        if self.fault.is_some() {
            return Err(StepFault::NotEnabled);
        }
        let Some(HandlerSeat { variable, at }) = self.seat_of(name) else {
            return Err(StepFault::NotEnabled);
        };
        let beside = &self.handlers[variable];
        let held = &beside.held()[at];
        let place = HandlerPlace::new(variable, held.pool, held.procedure);
        let Some(event) = beside.next_at(&self.variables[variable], at) else {
            return Err(StepFault::NotEnabled);
        };
        if self.is_full() {
            return Err(StepFault::Full);
        }
        self.hand(alloc, name, place, at, event)
    }

    /// Hands the event that comes next, and starts the task that handles it.
    #[inline(always)]
    fn hand(
        &mut self,
        alloc: Global,
        name: &HandlerName<<P::Lat as Lattice>::Event>,
        place: HandlerPlace,
        at: usize,
        event: <P::Lat as Lattice>::Event,
    ) -> Result<(Stepped, Moved<<P::Lat as Lattice>::Event, P::Local>), StepFault>
        requires room { self.old.steps < MOST_PROGRAM_STEPS }
        requires handing { IsHanding (⟦<P as Meaning>⟧.machine self.old.program) self.old name.now place event }
        requires at { IsPostedAt name.now place at self.old.table.handlers }
        ensures { Hands (⟦<P as Meaning>⟧.machine self.old.program) self.old name.now event self.new result }
    {
        lawful::<P>();
        handed_next::<P>();
        hand_kept::<P>();
        handlers_are_held::<P>();
        counts_kept::<P>();
        counts_follow::<P>();
        names_are_new::<P>();
        running_counts::<P>();
        let task = TaskName::handed(alloc, name, &event)?;
        let local = self.program.start_handler(alloc, place.procedure, &event)?;
        let made = Made {
            name: task.copy()?,
            local: self.program.copy_local(alloc, &local)?,
        };
        self.tasks.push(task, Stage::started(local))?;
        hand_at(&mut self.handlers, &self.variables, name, place, at);
        self.last_seat = HandlerSeat {
            variable: place.variable,
            at,
        };
        self.running += 1;
        self.steps += 1;
        self.touched = Some(Touched::Handed(place.variable));
        let moved = Moved {
            own: None,
            made: Some(made),
            added: None,
        };
        Ok((Stepped::Done, moved))
    }
}

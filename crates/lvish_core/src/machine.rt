ghost use Rattle.std.specs.Prelude.{◌≡◌, MatchResult, IfOk};
ghost use Rattle.lvish_calculus.specs.declared.label.Label.TheVariants.{Act, Hand};

mod act;
mod add;
mod asked;
mod end;
mod fail;
mod fork;
mod freeze;
mod get;
mod go_on;
mod handing;
mod place_of;
mod put;
mod reads;
mod ready;
mod seat_of;
mod shown;

use crate::begun::{bottoms, no_handlers};
use crate::core_meaning::CoreMeaning;
use crate::fault::{RunError, StepFault, Stepped};
use crate::handler_place::HandlerSeat;
use crate::places::Places;
use crate::pools::pools_of;
use crate::stage::Stage;
use crate::tasks::Tasks;
use crate::touched::Touched;
use lvish_calculus::laws::lawful;
use lvish_calculus::{Label, Program};
use lvish_handlers::Handlers;
use lvish_lattice::Lattice;
use lvish_names::{HandlerName, TaskName};
use lvish_picture::laws::{begun_is_pictured, handed_next, handlers_are_held};
use lvish_variable::Variable;
use std::alloc::{AllocError, Global};
use std::marker::Model;

/// A run of a program, as far as it has come.
///
/// It stands for one configuration, and each step is a step of the calculus.
pub struct Core<'p, P: Program> {
    program: &'p P,
    variables: Vec<Variable<P::Lat>>,
    handlers: Vec<Handlers<P::Lat>>,
    tasks: Tasks<<P::Lat as Lattice>::Event, P::Local>,
    // where each handler is, so that a handing finds it by its name
    places: Places<<P::Lat as Lattice>::Event>,
    // where the handler stood that was handed an event last; another may stand there, or none
    last_seat: HandlerSeat,
    running: usize,
    steps: u64,
    fault: Option<RunError<<P::Lat as Lattice>::Event>>,
    touched: Option<Touched>,
    // the frozen variables, in the order in which they were first frozen
    freezes: Vec<usize>,
}

// Written out, so that it is proved once, and not at each exit of a function that owns one.
impl<'p, P: Program> Drop for Core<'p, P> {
    fn drop(self) {
        let Core {
            program: _,
            variables: _,
            handlers: _,
            tasks: _,
            places: _,
            last_seat: _,
            running: _,
            steps: _,
            fault: _,
            touched: _,
            freezes: _,
        } = self;
    }
}

impl<'p, P: Program> Model for Core<'p, P> {
    ghost use Rattle.lvish_calculus.specs.Program.{machine_of};
    ghost use Rattle.lvish_core.specs.Core.{CoreView};
    ghost use Rattle.lvish_core.specs.Kept.{IsKept};

    ghost Value = { CoreView P P.Lat P.Lat.Event P.Local };

    ghost view = { λ c. record { program = c.program.now; table = record { variables = c.variables.items; handlers = c.handlers.items; tasks = c.tasks }; steps = c.steps; fault = c.fault; touched = c.touched; freezes = c.freezes.items } };

    ghost invariant = { λ c. IsKept (machine_of P.Lat.eq P.Lat.Event.eq P.Lat.Event.cmp P.Lat.least P.Lat.joined P.Lat.events_of P.Lat.answer_of (P.functions c.program.now)) (P.functions c.program.now).variables c.running c.places (record { program = c.program.now; table = record { variables = c.variables.items; handlers = c.handlers.items; tasks = c.tasks }; steps = c.steps; fault = c.fault; touched = c.touched; freezes = c.freezes.items }) };
}

impl<'p, P: Program> Core<'p, P> {
    /// A core at the start: every variable at bottom, no handler, and `main` alone.
    ///
    /// # Errors
    ///
    /// Where there is no room for the variables, for a count for each pool, or for `main`.
    pub fn new(alloc: Global, program: &'p P) -> Result<Self, AllocError>
        ensures { IfOk result (λ c. ⟦<P as CoreMeaning>⟧.is_begun program.now c) }
    {
        lawful::<P>();
        begun_is_pictured::<P>();
        let Some(pools) = pools_of(program) else {
            // There is no room for that many counts.
            return Err(AllocError);
        };
        let count = program.variables();
        let variables = bottoms(alloc, count)?;
        let handlers = no_handlers(alloc, count, pools)?;
        let mut tasks = Tasks::new(alloc);
        let main = Stage::started(program.start(alloc)?);
        tasks.push(TaskName::main(), main)?;
        Ok(Core {
            program,
            variables,
            handlers,
            tasks,
            places: Places::new(alloc),
            last_seat: HandlerSeat { variable: 0, at: 0 },
            running: 1,
            steps: 0,
            fault: None,
            touched: None,
            freezes: Vec::new(alloc),
        })
    }

    /// Makes the step with the label.
    ///
    /// # Errors
    ///
    /// `NotEnabled` where the label isn't enabled or hands another event than the log's next, else
    /// `Full` where 4,294,967,295 steps were made; `Memory` where a growth was refused. The core is as
    /// it was.
    pub fn step(
        &mut self,
        alloc: Global,
        label: &Label<<P::Lat as Lattice>::Event>,
    ) -> Result<Stepped, StepFault>
        ensures stepped { MatchResult result (λ s. ⟦<P as CoreMeaning>⟧.is_step self.old label.now self.new s) (λ e. ⟦<P as CoreMeaning>⟧.is_refused self.old label.now e × (self.new ≡ self.old)) }
    {
        match label {
            Label::Act(name) => {
                self.index_names();
                self.step_task(alloc, name)
            }
            Label::Hand(name, event) => self.step_event(alloc, name, event),
        }
    }

    /// Makes the task's step.
    fn step_task(
        &mut self,
        alloc: Global,
        name: &TaskName<<P::Lat as Lattice>::Event>,
    ) -> Result<Stepped, StepFault>
        ensures { MatchResult result (λ s. ⟦<P as CoreMeaning>⟧.is_step self.old (Act name.now) self.new s) (λ e. ⟦<P as CoreMeaning>⟧.is_refused self.old (Act name.now) e × (self.new ≡ self.old)) }
    {
        let Some(local) = self.local_of(name) else {
            return Err(StepFault::NotEnabled);
        };
        let asks = self.program.ask(alloc, local)?;
        let (stepped, _moved) = self.step_asked(alloc, name, &asks)?;
        Ok(stepped)
    }

    /// Hands the event to the handler, where it comes next.
    fn step_event(
        &mut self,
        alloc: Global,
        name: &HandlerName<<P::Lat as Lattice>::Event>,
        event: &<P::Lat as Lattice>::Event,
    ) -> Result<Stepped, StepFault>
        ensures { MatchResult result (λ s. ⟦<P as CoreMeaning>⟧.is_step self.old (Hand name.now event.now) self.new s) (λ e. ⟦<P as CoreMeaning>⟧.is_refused self.old (Hand name.now event.now) e × (self.new ≡ self.old)) }
    {
        lawful::<P>();
        handed_next::<P>();
        handlers_are_held::<P>();
        if self.fault.is_some() {
            return Err(StepFault::NotEnabled);
        }
        match self.next(name) {
            Some(next) if next == *event => {}
            _ => return Err(StepFault::NotEnabled),
        }
        let (stepped, _moved) = self.step_hand(alloc, name)?;
        Ok(stepped)
    }
}

//! What a core says of itself.

ghost use Rattle.std.specs.Prelude.{◌≡◌, ◌↔◌, IsTrue, IsSome, IfOk};
ghost use Rattle.lvish_calculus.specs.declared.label.Label.TheVariants.{Act};
ghost use Rattle.lvish_core.specs.Reads.{NoneIsReady};

use super::Core;
use crate::core_meaning::CoreMeaning;
use crate::stage::Stage;
use lvish_calculus::laws::lawful;
use lvish_calculus::{Label, Meaning, Program, Request};
use lvish_lattice::{Lattice, Reads};
use lvish_names::TaskName;
use lvish_picture::laws::{ends_by_cursors, handed_next, handlers_are_held};
use std::alloc::{AllocError, Global};

impl<'p, P: Program> Core<'p, P> {
    /// Whether a step with the label can be made: it is enabled, and hands no event but the log's
    /// next.
    pub fn enabled(
        &self,
        alloc: Global,
        label: &Label<<P::Lat as Lattice>::Event>,
    ) -> Result<bool, AllocError>
        ensures { IfOk result (λ b. IsTrue b ↔ ⟦<P as CoreMeaning>⟧.can_take self.now label.now) }
    {
        lawful::<P>();
        handed_next::<P>();
        handlers_are_held::<P>();
        if self.fault.is_some() {
            return Ok(false);
        }
        match label {
            Label::Act(name) => match self.tasks.get(name) {
                Some(stage) => self.is_at_ready(alloc, stage),
                None => Ok(false),
            },
            Label::Hand(name, event) => match self.next(name) {
                Some(next) => Ok(next == *event),
                None => Ok(false),
            },
        }
    }

    /// The labels that a step can be made with: tasks by name, then handlers by name, each with
    /// the next event of its variable's log.
    pub fn labels(
        &self,
        alloc: Global,
    ) -> Result<Vec<Label<<P::Lat as Lattice>::Event>>, AllocError>
        ensures { IfOk result (λ ls. ⟦<P as CoreMeaning>⟧.are_labels self.now ls.items) }
    {
        lawful::<P>();
        handed_next::<P>();
        handlers_are_held::<P>();
        let mut labels = Vec::new(alloc);
        if self.fault.is_some() {
            return Ok(labels);
        }
        let tasks = self.tasks.in_order(alloc)?;
        for entry in tasks.iter() {
            let (task, stage) = *entry;
            if self.is_at_ready(alloc, stage)? {
                labels.push(Label::Act(task.copy()?))?;
            }
        }
        for (handler, place) in self.places.iter() {
            let variable = &self.variables[place.variable];
            if let Some(event) = self.handlers[place.variable].next(variable, handler) {
                labels.push(Label::Hand(handler.copy()?, event))?;
            }
        }
        Ok(labels)
    }

    /// Whether a step of the task can be made, whose request this is.
    pub fn can(
        &self,
        name: &TaskName<<P::Lat as Lattice>::Event>,
        request: &Request<P::Lat, <P::Lat as Reads>::Read, P::Local>,
    ) -> bool
        requires { ⟦<P as CoreMeaning>⟧.is_its_request self.now name.now request.now }
        ensures { IsTrue result ↔ ⟦<P as CoreMeaning>⟧.can_take self.now (Act name.now) }
    {
        if self.fault.is_some() {
            return false;
        }
        match self.tasks.get(name) {
            Some(Stage::Live { .. }) => self.is_ready(request),
            _ => false,
        }
    }

    /// Whether a step can be made of the task, which is there and hasn't ended, and whose request this
    /// is. It doesn't look for the task.
    pub fn can_act(
        &self,
        name: &TaskName<<P::Lat as Lattice>::Event>,
        request: &Request<P::Lat, <P::Lat as Reads>::Read, P::Local>,
    ) -> bool
        requires there { IsSome (⟦<P as CoreMeaning>⟧.local_in self.now name.now) }
        requires request { ⟦<P as CoreMeaning>⟧.is_its_request self.now name.now request.now }
        ensures { IsTrue result ↔ ⟦<P as CoreMeaning>⟧.can_take self.now (Act name.now) }
    {
        if self.fault.is_some() {
            return false;
        }
        self.is_ready(request)
    }

    /// What the task asks for; `None` where it has ended or isn't there.
    pub fn request_of(
        &self,
        alloc: Global,
        name: &TaskName<<P::Lat as Lattice>::Event>,
    ) -> Result<Option<Request<P::Lat, <P::Lat as Reads>::Read, P::Local>>, AllocError>
        ensures { IfOk result (λ r. r ≡ ⟦<P as CoreMeaning>⟧.request_in self.now name.now) }
    {
        match self.local_of(name) {
            Some(local) => Ok(Some(self.program.ask(alloc, local)?.request)),
            None => Ok(None),
        }
    }

    /// Whether this is an end: no label is enabled, and no step gave an error.
    ///
    /// The cursors say whether an event is still to be handed, the count whether a task is left.
    /// The tasks that are left are asked, in any order, up to the first that can go on.
    pub fn is_ended(&self, alloc: Global) -> Result<bool, AllocError>
        ensures { IfOk result (λ b. IsTrue b ↔ ⟦<P as CoreMeaning>⟧.is_ended self.now) }
    {
        lawful::<P>();
        ends_by_cursors::<P>();
        if self.fault.is_some() || !self.is_drained() {
            return Ok(false);
        }
        self.are_all_blocked(alloc)
    }

    /// Whether no task can step: none is left, or each is blocked.
    fn are_all_blocked(&self, alloc: Global) -> Result<bool, AllocError>
        ensures { IfOk result (λ b. IsTrue b ↔ NoneIsReady (⟦<P as Meaning>⟧.machine self.now.program) self.now) }
    {
        if self.running == 0 {
            return Ok(true);
        }
        self.is_each_blocked(alloc)
    }

    /// Whether each task is blocked, asked of each, up to the first that isn't.
    fn is_each_blocked(&self, alloc: Global) -> Result<bool, AllocError>
        ensures { IfOk result (λ b. IsTrue b ↔ NoneIsReady (⟦<P as Meaning>⟧.machine self.now.program) self.now) }
    {
        lawful::<P>();
        for stage in self.tasks.stages() {
            if self.is_at_ready(alloc, stage)? {
                return Ok(false);
            }
        }
        Ok(true)
    }
}

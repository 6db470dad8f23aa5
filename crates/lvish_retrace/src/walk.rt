//! The walk of a core by the labels of a trace.

ghost use Rattle.std.specs.Prelude.{◌≡◌, IfOk, MatchOption, None, []};
ghost use Rattle.lvish_calculus.specs.declared.label.Label.TheVariants.{Act as Acts, Hand as Hands};
ghost use Rattle.lvish_core.specs.Tasks.{IsAt};
ghost use Rattle.lvish_trace.specs.Traced.{labels_of};
ghost use Rattle.lvish_retrace.specs.Walk.{TellsOrStops, TellsAllOrNone};

use crate::act::{Act, alone};
use crate::bringer::Bringer;
use crate::crew::Crew;
use crate::make::{answer_in, hand_on, make};
use crate::standing::Standing;
use crate::told_step::ToldStep;
use lvish_calculus::{Asks, Label, Meaning, Program};
use lvish_compound::{Any, AnyRead, Event};
use lvish_core::laws::{entries_carry_their_puts, takes_core_runs};
use lvish_core::{Core, CoreMeaning, Touched};
use lvish_names::{HandlerName, TaskName};
use lvish_task::{Local, ScriptCode};
use lvish_trace::TraceEntry;
use std::alloc::{AllocError, Global};

/// What is told of a walk.
pub struct Telling<'c, 't> {
    pub crew: Crew<'c, 't>,
    pub steps: Vec<ToldStep>,
    pub brought: Vec<Bringer<Event>>,
    pub standings: Vec<Standing>,
}

// Written out, so that it is proved once, and not at each exit of a function that owns one.
impl<'c, 't> Drop for Telling<'c, 't> {
    fn drop(self) {
        let Telling {
            crew: _,
            steps: _,
            brought: _,
            standings: _,
        } = self;
    }
}

/// The index of the task, and what it asks for; `None` where it has ended or isn't there.
pub fn asked(
    alloc: Global,
    core: &Core<'_, ScriptCode>,
    name: &TaskName<Event>,
) -> Result<Option<(usize, Asks<Any, AnyRead, Local>)>, AllocError>
    ensures { IfOk result (λ o. MatchOption o (⟦<ScriptCode as CoreMeaning>⟧.local_in core.now name.now ≡ None)
        (λ s. IsAt core.now.table.tasks s.0 name.now × ⟦<ScriptCode as CoreMeaning>⟧.is_its_request core.now name.now s.1.request × ⟦<ScriptCode as CoreMeaning>⟧.is_its_place core.now name.now s.1.at)) }
{
    let Some((local, numbers)) = core.standing_of(name) else {
        return Ok(None);
    };
    let asks = core.program().ask(alloc, local)?;
    Ok(Some((numbers.index, asks)))
}

/// What the task of this index is told to ask for, and where: before its step.
pub fn told_of(
    alloc: Global,
    core: &Core<'_, ScriptCode>,
    crew: &mut Crew<'_, '_>,
    task: usize,
    asks: &Asks<Any, AnyRead, Local>,
) -> Result<ToldStep, AllocError>
    ensures { IfOk result (λ t. t.task ≡ task) }
{
    let answer = answer_in(core.states(), &asks.request);
    crew.asks(
        alloc,
        task,
        asks.at.statements(),
        alone(&asks.request),
        answer,
    )
}

/// The variable of the last handing, and the procedure of this handler on it.
fn handled(core: &Core<'_, ScriptCode>, handler: &HandlerName<Event>) -> (usize, usize) {
    let Some(Touched::Handed(variable)) = core.last_touched() else {
        return (0, 0);
    };
    if variable >= core.states().len() {
        return (0, 0);
    }
    for held in core.handlers(variable) {
        if held.name == *handler {
            return (variable, held.procedure);
        }
    }
    (variable, 0)
}

/// Where each put stands that was noted, of which there are this many, by this task.
fn note_standings(
    alloc: Global,
    crew: &Crew<'_, '_>,
    standings: &mut Vec<Standing>,
    count: usize,
    task: usize,
) -> Result<(), AllocError> {
    for _ in standings.len()..count {
        standings.push(crew.standing(alloc, task)?)?;
    }
    Ok(())
}

impl<'c, 't> Telling<'c, 't> {
    /// Its parts: the tasks, the steps, the puts and where they stood.
    pub fn into_parts(
        self,
    ) -> (
        Crew<'c, 't>,
        Vec<ToldStep>,
        Vec<Bringer<Event>>,
        Vec<Standing>,
    )
        ensures steps { result.1 ≡ self.entry.steps }
        ensures brought { result.2 ≡ self.entry.brought }
    {
        let Telling {
            crew,
            steps,
            brought,
            standings,
        } = self;
        (crew, steps, brought, standings)
    }

    /// The step of a task.
    fn act(
        &mut self,
        alloc: Global,
        core: &mut Core<'_, ScriptCode>,
        name: &TaskName<Event>,
        number: usize,
    ) -> Result<bool, AllocError>
        ensures { IfOk result (λ told. TellsOrStops (⟦<ScriptCode as Meaning>⟧.machine core.old.program) core.old (Acts name.now) core.new number self.old.brought.items self.new.brought.items self.old.steps.items self.new.steps.items told) }
    {
        let Some((task, asks)) = asked(alloc, core, name)? else {
            return Ok(false);
        };
        let told = told_of(alloc, core, &mut self.crew, task, &asks)?;
        let Some(said) = make(alloc, core, name, &asks, number, &mut self.brought)? else {
            return Ok(false);
        };
        note_standings(
            alloc,
            &self.crew,
            &mut self.standings,
            self.brought.len(),
            task,
        )?;
        self.crew.stepped(alloc, core.states(), told, number, said)?;
        self.steps.push(told)?;
        Ok(true)
    }

    /// A handing, with this label.
    fn hand(
        &mut self,
        alloc: Global,
        core: &mut Core<'_, ScriptCode>,
        label: &Label<Event>,
        handler: &HandlerName<Event>,
        event: Event,
        number: usize,
    ) -> Result<bool, AllocError>
        requires { label.now ≡ Hands handler.now event }
        ensures { IfOk result (λ told. TellsOrStops (⟦<ScriptCode as Meaning>⟧.machine core.old.program) core.old label.now core.new number self.old.brought.items self.new.brought.items self.old.steps.items self.new.steps.items told) }
    {
        let task = core.tasks();
        if !hand_on(alloc, core, label)? {
            return Ok(false);
        }
        let (variable, procedure) = handled(core, handler);
        let line = self.crew.handed(alloc, variable, procedure, event, number)?;
        self.steps.push(ToldStep {
            task,
            line,
            act: Act::Begin,
        })?;
        Ok(true)
    }

    /// The step with this label, which has this number.
    fn step(
        &mut self,
        alloc: Global,
        core: &mut Core<'_, ScriptCode>,
        label: &Label<Event>,
        number: usize,
    ) -> Result<bool, AllocError>
        ensures { IfOk result (λ told. TellsOrStops (⟦<ScriptCode as Meaning>⟧.machine core.old.program) core.old label.now core.new number self.old.brought.items self.new.brought.items self.old.steps.items self.new.steps.items told) }
    {
        match label {
            Label::Act(name) => self.act(alloc, core, name, number),
            Label::Hand(handler, event) => self.hand(alloc, core, label, handler, *event, number),
        }
    }

    /// The steps with these labels, as far as the core can make them. Whether it can make all.
    pub fn walk(
        &mut self,
        alloc: Global,
        core: &mut Core<'_, ScriptCode>,
        entries: &[TraceEntry<Event>],
    ) -> Result<bool, AllocError>
        requires begun { ⟦<ScriptCode as CoreMeaning>⟧.is_begun core.old.program core.old }
        requires nothing { self.old.brought.items ≡ [] }
        requires untold { self.old.steps.items ≡ [] }
        ensures { IfOk result (λ whole. TellsAllOrNone (⟦<ScriptCode as Meaning>⟧.machine core.old.program) core.old.program (labels_of entries.now) core.new self.new.brought.items self.new.steps.items whole) }
    {
        takes_core_runs::<ScriptCode>();
        entries_carry_their_puts::<ScriptCode>();
        for number in 0..entries.len() {
            if !self.step(alloc, core, &entries[number].label, number)? {
                return Ok(false);
            }
        }
        Ok(true)
    }
}

ghost use Rattle.std.specs.Prelude.{◌≡◌, IfOk, IfSome, MatchOption, [], length};
ghost use Rattle.lvish_trace.specs.Traced.{labels_of};
ghost use Rattle.lvish_retrace.specs.Walk.{IsCoreRun, IsTold};

use crate::crew::Crew;
use crate::live::all_live;
use crate::story::Story;
use crate::text::procedures_of;
use crate::told::Told;
use crate::walk::Telling;
use lvish_calculus::Meaning;
use lvish_compound::{Any, Event};
use lvish_core::Core;
use lvish_names::TaskName;
use lvish_report::Report;
use lvish_task::ScriptCode;
use std::alloc::{AllocError, Global};

/// The report's run, told: of the script with this code and this text.
///
/// `None` where its trace is no run of the code of at most 4,294,967,295 steps in which each event is
/// handed in the order of its introduction. A report of a run of the script has such a trace.
///
/// # Errors
///
/// `AllocError` where a growth was refused.
pub fn retrace<'c, 't>(
    alloc: Global,
    code: &'c ScriptCode,
    text: &'t [u8],
    report: &Report<Any, Event>,
) -> Result<Option<Told<'c, 't>>, AllocError>
    ensures told { IfOk result (λ o. MatchOption o (IsCoreRun (⟦<ScriptCode as Meaning>⟧.machine code.now) (labels_of report.now.trace) → ⊥)
        (λ told. IsTold (⟦<ScriptCode as Meaning>⟧.machine code.now) code.now (labels_of report.now.trace) told.core told.story.brought.items told.story.steps.items)) }
    // The core has each variable of the code.
    ensures variables { IfOk result (λ o. IfSome o (λ told. length told.core.table.variables ≡ length code.now.flat.kinds)) }
{
    let entries = report.trace.entries(alloc)?;
    let mut core = Core::new(alloc, code)?;
    let mut telling = begun(alloc, code, text)?;
    if !telling.walk(alloc, &mut core, entries.as_slice())? {
        return Ok(None);
    }
    let _variables = core.states();
    let story = story_of(alloc, &core, telling)?;
    Ok(Some(Told { core, story }))
}

/// What is told of the run that has led to this core.
fn story_of<'t>(
    alloc: Global,
    core: &Core<'_, ScriptCode>,
    telling: Telling<'_, 't>,
) -> Result<Story<'t>, AllocError>
    ensures brought { IfOk result (λ s. s.brought ≡ telling.entry.brought) }
    ensures steps { IfOk result (λ s. s.steps ≡ telling.entry.steps) }
{
    let mut telling = telling;
    let live = all_live(alloc, core, &mut telling.crew)?;
    let names = names_of(alloc, core)?;
    let (crew, steps, brought, standings) = telling.into_parts();
    let (procedures, begins) = crew.into_parts();
    Ok(Story {
        procedures,
        names,
        begins,
        steps,
        brought,
        standings,
        live,
    })
}

/// The name of each task, by its index.
fn names_of(
    alloc: Global,
    core: &Core<'_, ScriptCode>,
) -> Result<Vec<TaskName<Event>>, AllocError> {
    let mut names = Vec::new(alloc);
    for index in 0..core.tasks() {
        if let Some(name) = core.name_at(index) {
            names.push(name.copy()?)?;
        }
    }
    Ok(names)
}

/// Nothing told yet.
fn begun<'c, 't>(
    alloc: Global,
    code: &'c ScriptCode,
    text: &'t [u8],
) -> Result<Telling<'c, 't>, AllocError>
    ensures brought { IfOk result (λ t. t.brought.items ≡ []) }
    ensures steps { IfOk result (λ t. t.steps.items ≡ []) }
{
    Ok(Telling {
        crew: Crew::new(alloc, &code.flat, procedures_of(alloc, text)?)?,
        steps: Vec::new(alloc),
        brought: Vec::new(alloc),
        standings: Vec::new(alloc),
    })
}

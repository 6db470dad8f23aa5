ghost use Rattle.std.specs.Prelude.{◌≡◌, IfOk, MatchOption, None};
ghost use Rattle.lvish_trace.specs.Traced.{labels_of};
ghost use Rattle.lvish_retrace.specs.Brought.{IsPutOf};
ghost use Rattle.lvish_retrace.specs.Walk.{IsCoreRun};
ghost use Rattle.lvish_why.specs.Why.{IsNamed, IsThere};

use crate::absent::absent_text;
use crate::derivation::derivation_of;
use crate::derived::Derived;
use crate::dot::dot_text;
use crate::form::Form;
use crate::page::Page;
use crate::question::Question;
use crate::tree::tree_text;
use lvish_code::Code;
use lvish_compound::{Any, Event};
use lvish_report::Report;
use lvish_retrace::{Bringer, Story, put_of, retrace};
use lvish_syntax::Script;
use lvish_task::laws::same_runs;
use lvish_task::{ScriptCode, ScriptMeaning};
use std::alloc::{AllocError, Global};

/// Why the event is there, in the report's run of the script with this text: which put brought it, and
/// what that follows from. Where it isn't there: which tasks could put it that haven't ended.
///
/// `None` where the report's trace is no run of the script; a report of a run of it has one.
///
/// # Errors
///
/// `AllocError` where a growth was refused.
pub fn why(
    alloc: Global,
    text: &[u8],
    script: &Script,
    report: &Report<Any, Event>,
    asked: Question,
    form: Form,
) -> Result<Option<Derived>, AllocError>
    ensures { IfOk result (λ o. MatchOption o (IsCoreRun (⟦<Script as ScriptMeaning>⟧.machine script.now) (labels_of report.now.trace) → ⊥)
        (λ d. IsThere (⟦<Script as ScriptMeaning>⟧.machine script.now) script.now asked (labels_of report.now.trace) d.is_there)) }
{
    same_runs();
    let code = ScriptCode::new(alloc, script)?;
    match retrace(alloc, &code, text, report)? {
        Some(told) => Ok(Some(derived(
            alloc,
            text,
            script,
            report,
            &code.flat,
            &told.story,
            asked,
            form,
        )?)),
        None => Ok(None),
    }
}

/// The same of a run that is told.
fn derived(
    alloc: Global,
    text: &[u8],
    script: &Script,
    report: &Report<Any, Event>,
    code: &Code,
    told: &Story<'_>,
    asked: Question,
    form: Form,
) -> Result<Derived, AllocError>
    ensures { IfOk result (λ d. IsNamed code.now.kinds asked told.now.brought.items d.is_there) }
{
    let page = Page::new(alloc, text, script, code, told)?;
    let event = asked.event(code.kinds());
    let place = put_asked(told.brought.as_slice(), asked.variable, event);
    let is_there = place.is_some();
    let text = match place {
        Some(place) => derived_text(alloc, &page, place, form)?,
        None => absent_text(alloc, &page, &report.outcome, asked, event)?,
    };
    Ok(Derived { is_there, text })
}

/// The place of the put that brought the event, if it is one.
fn put_asked(brought: &[Bringer<Event>], variable: usize, event: Option<Event>) -> Option<usize>
    ensures { MatchOption event (result ≡ None) (λ e. IsPutOf brought.now variable e result) }
{
    put_of(brought, variable, &event?)
}

/// The derivation of the event that the put at this place brought.
fn derived_text(
    alloc: Global,
    page: &Page<'_, '_>,
    place: usize,
    form: Form,
) -> Result<Vec<u8>, AllocError> {
    match form {
        Form::Tree { depth } => {
            let nodes = derivation_of(alloc, page.told, place, depth)?;
            tree_text(alloc, page, nodes.as_slice())
        }
        Form::Dot { depth } => {
            let nodes = derivation_of(alloc, page.told, place, depth)?;
            dot_text(alloc, page, nodes.as_slice())
        }
    }
}

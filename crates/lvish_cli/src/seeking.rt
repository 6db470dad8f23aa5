ghost use Rattle.std.specs.Prelude.{◌≤◌, ◌≡◌, IfOk, IfSome, Some, [], String, map, pos, slice_get};
ghost use Rattle.lvish_report.specs.Text.{variables_of};
ghost use Rattle.std.specs.Global.{Global};
ghost use Rattle.lvish_cli.specs.declared.status.Status.TheVariants.{Usage};
ghost use Rattle.lvish_cli.specs.Derivations.{IsNamed, IsWhyAnswer, has_keys, there_status};

use crate::arguments::MOST_PICK;
use crate::order::{Picks, WhyOrder};
use crate::output::Output;
use crate::status::Status;
use lvish_again::laws::reports_are_core_runs;
use lvish_run::{MOST_STEPS, RunMeaning, run_picks};
use lvish_syntax::{Declaration, Script, VariableKind};
use lvish_why::{Derived, Form, Question, why};
use std::alloc::{AllocError, Global};

/// Why words name no event of a script, or no run.
#[derive(Clone, Copy)]
enum Unnamed {
    Variable,
    Event,
    Pick,
}

/// The answer to an order about an event, in the run of the script that its picks make.
pub fn why_answer(
    alloc: Global,
    text: &[u8],
    script: &Script,
    asked: &WhyOrder,
) -> Result<Output, AllocError>
    requires { asked.now.budget ≤ MOST_STEPS }
    ensures { IfOk result (λ answer. IsWhyAnswer ⟦<Script as RunMeaning>⟧.is_picked_run script.now asked.now answer.status answer.text.items) }
{
    let (event, rest) = match event_of(script, asked) {
        Ok(named) => named,
        Err(unnamed) => return misuse(alloc, asked, unnamed),
    };
    match picks_from(alloc, rest)? {
        Some(picks) => derived(alloc, text, script, asked, event, &picks),
        None => misuse(alloc, asked, Unnamed::Pick),
    }
}

/// How the event came about in the run of these picks, or why it isn't there.
fn derived(
    alloc: Global,
    text: &[u8],
    script: &Script,
    asked: &WhyOrder,
    event: Question,
    picks: &Picks,
) -> Result<Output, AllocError>
    requires bounded { asked.now.budget ≤ MOST_STEPS }
    requires named { IsNamed script.now asked.now event (map pos picks.now) }
    ensures { IfOk result (λ answer. IsWhyAnswer ⟦<Script as RunMeaning>⟧.is_picked_run script.now asked.now answer.status answer.text.items) }
{
    reports_are_core_runs();
    let report = run_picks(alloc, script, picks.as_slice(), asked.budget)?;
    match why(alloc, text, script, &report, event, form_of(asked))? {
        Some(Derived { is_there, text }) => Ok(Output::said(status_of(is_there), text)),
        None => unreachable!(),
    }
}

/// The status that tells whether an event is there.
fn status_of(is_there: bool) -> Status
    ensures { result ≡ there_status is_there }
{
    if is_there {
        Status::Done
    } else {
        Status::Absent
    }
}

/// The form in which it is printed.
fn form_of(asked: &WhyOrder) -> Form {
    let depth = asked.depth;
    if asked.dot {
        Form::Dot { depth }
    } else {
        Form::Tree { depth }
    }
}

/// The words are refused, since they name no event of the script, or no run.
fn misuse(alloc: Global, asked: &WhyOrder, unnamed: Unnamed) -> Result<Output, AllocError>
    ensures status { IfOk result (λ answer. (message : String Global) × (answer.status ≡ Usage message)) }
    ensures text { IfOk result (λ answer. answer.text.items ≡ []) }
{
    let variable = asked.variable.as_str();
    let message = match unnamed {
        Unnamed::Variable => {
            format!(in alloc; "error: the script declares no variable '{variable}'\n")?
        }
        Unnamed::Event => {
            format!(in alloc; "error: an event of '{variable}' has a key and a number\n")?
        }
        Unnamed::Pick => format!(in alloc; "error: a pick is a number from 0 to {MOST_PICK}\n")?,
    };
    Ok(Output::said(Status::Usage(message), Vec::new(alloc)))
}

/// The event that an order names, and the numbers behind it.
fn event_of<'w>(script: &Script, asked: &'w WhyOrder) -> Result<(Question, &'w [i64]), Unnamed>
    ensures { IfOk result (λ named. IsNamed script.now asked.now named.0 named.1.now) }
{
    let declarations = script.declarations();
    let Some((variable, kind)) = variable_named(declarations, asked.variable.as_str()) else {
        return Err(Unnamed::Variable);
    };
    match asked.numbers.as_slice() {
        [key, number, rest @ ..] if has_keys(kind) => Ok((
            Question {
                variable,
                key: *key,
                number: *number,
            },
            rest,
        )),
        [number, rest @ ..] if !has_keys(kind) => Ok((
            Question {
                variable,
                key: 0,
                number: *number,
            },
            rest,
        )),
        _ => Err(Unnamed::Event),
    }
}

/// The variable of this name, by its number, and its kind.
fn variable_named(declarations: &[Declaration], name: &str) -> Option<(usize, VariableKind)>
    ensures { IfSome result (λ found. slice_get (variables_of declarations.now) found.0 ≡ Some (name.now, found.1)) }
{
    let mut variable = 0;
    for i in 0..declarations.len() {
        if let Declaration::Variable(declared, kind) = &declarations[i] {
            if declared.as_str() == name {
                return Some((variable, *kind));
            }
            variable += 1;
        }
    }
    None
}

/// Whether the events of a variable of this kind have keys.
fn has_keys(kind: VariableKind) -> bool
    ensures { result ≡ has_keys kind }
{
    match kind {
        VariableKind::Simple(_) => false,
        VariableKind::Map => true,
        VariableKind::Pair(_, _) => true,
        VariableKind::Tally => true,
    }
}

/// The picks that the numbers are; nothing where one is none.
fn picks_from(alloc: Global, numbers: &[i64]) -> Result<Option<Picks>, AllocError>
    ensures { IfOk result (λ found. IfSome found (λ picks. numbers.now ≡ map pos picks)) }
{
    let mut picks = Vec::new(alloc);
    for number in numbers {
        if *number < 0 || *number > MOST_PICK {
            return Ok(None);
        }
        picks.push(*number as u64)?;
    }
    Ok(Some(Picks::from(picks)))
}

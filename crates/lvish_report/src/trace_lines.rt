ghost use Rattle.std.specs.Prelude.{◌≡◌, ◌++◌, ◌∷◌, [], IfOk, OnOk, string_bytes};
ghost use Rattle.lvish_names.specs.NameText.{name_text};
ghost use Rattle.lvish_trace.specs.Traced.{labels_of};
ghost use Rattle.lvish_report.specs.TraceText.{step_line, trace_lines};

use crate::number_text::push_name;
use crate::report::Report;
use lvish_lattice::{Numbered, Plain};
use lvish_names::TaskName;
use lvish_trace::TracedStep;
use std::alloc::{AllocError, Global};

/// Adds a line with this word and the task's name.
fn push_task<E: Numbered>(
    text: &mut String,
    word: &str,
    task: &TaskName<E>,
) -> Result<(), AllocError>
    ensures { OnOk result (string_bytes text.new ≡ string_bytes text.old ++ (word.now ++ (name_text E.key_of E.number_of task.now ++ 10 ∷ []))) }
{
    text.push_str(word)?;
    push_name(text, task)?;
    text.push_str("\n")
}

/// Adds a step's line: the task that acts, or the one that a handing starts.
fn push_line<E: Numbered>(text: &mut String, step: TracedStep<'_, E>) -> Result<(), AllocError>
    ensures { OnOk result (string_bytes text.new ≡ string_bytes text.old ++ step_line E.key_of E.number_of step.entry) }
{
    match step {
        TracedStep::Run(task) => push_task(text, "run ", task),
        TracedStep::Hand(task) => push_task(text, "hand ", task),
    }
}

/// The text of a trace: for each step a line `run TASK` with the task that acts, or `hand TASK`
/// with the task that the handing starts.
///
/// # Errors
///
/// `AllocError` where a growth was refused.
pub fn trace_text<S, E: Plain + Numbered>(
    alloc: Global,
    report: &Report<S, E>,
) -> Result<String, AllocError>
    ensures { IfOk result (λ t. string_bytes t ≡ trace_lines E.key_of E.number_of (labels_of report.now.trace)) }
{
    let mut text = String::new(alloc);
    for number in 0..report.trace.len() {
        let Some(step) = report.trace.step(number) else {
            unreachable!()
        };
        push_line(&mut text, step)?;
    }
    Ok(text)
}

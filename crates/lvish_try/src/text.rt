ghost use Rattle.std.specs.Prelude.{◌≡◌, ◌++◌, IfOk, OnOk, string_bytes};
ghost use Rattle.lvish_try.specs.Text.{picks_text, count_text, report_lines, found_text, head, tried_text};
ghost use Rattle.lvish_try.specs.Tried.{IsShown, AreShown};

use crate::tried::{Found, Tried};
use lvish_compound::{Any, Event};
use lvish_run::{Report, report_text};
use lvish_syntax::Script;
use std::alloc::{AllocError, Global};

/// Adds which picks make a run.
fn push_picks(alloc: Global, text: &mut String, picks: &[u64]) -> Result<(), AllocError>
    ensures { OnOk result (string_bytes text.new ≡ string_bytes text.old ++ picks_text picks.now) }
{
    if picks.is_empty() {
        return text.push_str("without picks");
    }
    let picks = lvish_again::picks_text(alloc, picks)?;
    text.push_str("by picks")?;
    text.push_str(picks.as_str())?;
    Ok(())
}

/// Adds how often an outcome came.
fn push_count(alloc: Global, text: &mut String, count: u64, times: u64) -> Result<(), AllocError>
    ensures { OnOk result (string_bytes text.new ≡ string_bytes text.old ++ count_text count times) }
{
    let often = format!(in alloc; "{count} of {times} runs, for example ")?;
    text.push_str(often.as_str())
}

/// Adds the lines of a report, after the end of a line.
fn push_report(
    alloc: Global,
    text: &mut String,
    script: &Script,
    report: &Report<Any, Event>,
) -> Result<(), AllocError>
    requires { IsShown script.now report.now }
    ensures { OnOk result (string_bytes text.new ≡ string_bytes text.old ++ report_lines script.now report.now) }
{
    let lines = report_text(alloc, script, report, true)?;
    text.push_str(":\n")?;
    text.push_str(lines.as_str())
}

/// Adds an outcome: how often it came, picks that give it, and its report.
fn push_found(
    alloc: Global,
    text: &mut String,
    script: &Script,
    times: u64,
    found: &Found,
) -> Result<(), AllocError>
    requires { IsShown script.now found.now.report }
    ensures { OnOk result (string_bytes text.new ≡ string_bytes text.old ++ found_text script.now times found.now) }
{
    push_count(alloc, text, found.times, times)?;
    push_picks(alloc, text, found.picks.as_slice())?;
    push_report(alloc, text, script, &found.report)
}

/// The lines above all outcomes.
fn head(alloc: Global, seed: u64, outcomes: usize) -> Result<String, AllocError>
    ensures { IfOk result (λ t. string_bytes t ≡ head seed outcomes) }
{
    format!(in alloc; "seed {seed}\noutcomes {outcomes}\n")
}

/// What the runs came to: the seed, the number of outcomes, and for each outcome how often it came, picks
/// that give it, and the text of its report with a line for each variable.
///
/// # Errors
///
/// `AllocError` where a growth was refused.
pub fn tried_text(alloc: Global, script: &Script, tried: &Tried) -> Result<String, AllocError>
    requires { AreShown script.now tried.now.found }
    ensures { IfOk result (λ t. string_bytes t ≡ tried_text script.now tried.now) }
{
    let founds = tried.found.as_slice();
    let mut text = head(alloc, tried.seed, founds.len())?;
    for found in founds {
        push_found(alloc, &mut text, script, tried.times, found)?;
    }
    Ok(text)
}

ghost use Rattle.std.specs.Prelude.{◌<◌, ◌≤◌, ◌≡◌, ◌≢◌, Err, IfOk, length, option_map, string_bytes};
ghost use Rattle.lvish_again.specs.Again.{IsCoreRun};
ghost use Rattle.lvish_run.specs.Scripts.{script_machine};
ghost use Rattle.lvish_trace.specs.Traced.{labels_of};
ghost use Rattle.lvish_trace.specs.declared.outcome.Outcome.TheVariants.{Ended};
ghost use Rattle.lvish_report.specs.Text.{variables_of};
ghost use Rattle.lvish_cli.specs.Runs.{ArePicksKnown, IsPickAnswer, IsReportText, IsRunAnswer, outcome_status, traced_text};

use crate::lines::picks_line;
use crate::order::{PickOrder, RunOrder};
use crate::output::Output;
use crate::status::Status;
use lvish_again::laws::reports_are_core_runs;
use lvish_again::picks_of;
use lvish_compound::{Any, Event};
use lvish_json::report_json;
use lvish_run::{
    MOST_STEPS, MOST_WORKERS, Open, Outcome, Report, RunFault, RunMeaning, report_text, run,
    run_picks, trace_text,
};
use lvish_syntax::Script;
use std::alloc::{AllocError, Global};
use std::sync::Wait;
use std::thread::Threads;

/// The answer to a script that workers run.
pub fn run_answer<R: Threads + Wait + Sync>(
    rt: &R,
    alloc: Global,
    script: &Script,
    asked: &RunOrder,
) -> Result<Output, RunFault>
    requires some { 0 < asked.now.workers }
    requires few { asked.now.workers ≤ MOST_WORKERS }
    requires bounded { asked.now.budget ≤ MOST_STEPS }
    ensures ok { IfOk result (λ answer.
        IsRunAnswer ⟦<Script as RunMeaning>⟧.is_run script.now asked.now answer.status answer.text.items) }
    ensures patient { result ≢ Err RunFault.Stopped }
    ensures whole { result ≢ Err RunFault.Mixed }
    ensures alone { asked.now.workers ≡ 1 → result ≢ Err RunFault.NoThread }
{
    let report = run(rt, alloc, script, asked.workers, asked.budget, &Open)?;
    reports_are_core_runs();
    let picks = picks_asked(alloc, script, &report, asked.picks)?;
    let (json, all, trace) = (asked.json, asked.all, asked.trace);
    let text = told_text(alloc, script, &report, json, all, trace, slice_of(&picks))?;
    Ok(report_output(text, report))
}

/// The picks that make the report's run again, where they are asked for.
fn picks_asked(
    alloc: Global,
    script: &Script,
    report: &Report<Any, Event>,
    asked: bool,
) -> Result<Option<Vec<u64>>, AllocError>
    requires { IsCoreRun (script_machine script.now) (labels_of report.now.trace) }
    ensures { IfOk result (λ picks. ArePicksKnown asked script.now report.now (option_map (λ v. v.items) picks)) }
{
    if !asked {
        return Ok(None);
    }
    match picks_of(alloc, script, report)? {
        Some(picks) => Ok(Some(picks)),
        None => unreachable!(),
    }
}

/// The numbers that a vector holds, if there is one.
fn slice_of(numbers: &Option<Vec<u64>>) -> Option<&[u64]>
    ensures { option_map (λ p. p.now) result ≡ option_map (λ v. v.items) numbers.now }
{
    match numbers {
        Some(numbers) => Some(numbers.as_slice()),
        None => None,
    }
}

/// What is said of a report: as JSON, of every variable, with its trace before it, each where it is asked
/// for; and with the picks that are given behind it.
fn told_text(
    alloc: Global,
    script: &Script,
    report: &Report<Any, Event>,
    json: bool,
    all: bool,
    trace: bool,
    picks: Option<&[u64]>,
) -> Result<Vec<u8>, AllocError>
    requires { report.now.outcome ≡ Ended → length report.now.states ≡ length (variables_of script.now.declarations) }
    ensures { IfOk result (λ text. IsReportText json script.now report.now all trace (option_map (λ p. p.now) picks.entry) text.items) }
{
    if json {
        return report_json(alloc, script, report, picks);
    }
    let mut text = traced_text(alloc, script, report, all, trace)?;
    if let Some(picks) = picks {
        text.push_str(picks_line(alloc, picks)?.as_str())?;
    }
    Ok(text.into_bytes())
}

/// The answer to a script that is run by picks: the trace comes before the text of the report.
pub fn pick_answer(alloc: Global, script: &Script, asked: &PickOrder) -> Result<Output, AllocError>
    requires { asked.now.budget ≤ MOST_STEPS }
    ensures { IfOk result (λ answer.
        IsPickAnswer ⟦<Script as RunMeaning>⟧.is_picked_run script.now asked.now answer.status answer.text.items) }
{
    let report = run_picks(alloc, script, asked.picks.as_slice(), asked.budget)?;
    let text = told_text(alloc, script, &report, asked.json, asked.all, true, None)?;
    Ok(report_output(text, report))
}

/// The text of a report, and before it that of its trace where it is asked for.
fn traced_text(
    alloc: Global,
    script: &Script,
    report: &Report<Any, Event>,
    all: bool,
    trace: bool,
) -> Result<String, AllocError>
    requires { report.now.outcome ≡ Ended → length report.now.states ≡ length (variables_of script.now.declarations) }
    ensures { IfOk result (λ text. string_bytes text ≡ traced_text script.now report.now all trace) }
{
    let told = report_text(alloc, script, report, all)?;
    if !trace {
        return Ok(told);
    }
    let mut text = trace_text(alloc, report)?;
    text.push_str(told.as_str())?;
    Ok(text)
}

/// The text, with the report that it tells of and its status.
fn report_output(text: Vec<u8>, report: Report<Any, Event>) -> Output
    ensures status { result.status ≡ outcome_status report.blocked report.outcome }
    ensures text { result.text ≡ text }
{
    Output {
        status: status_of(&report),
        text,
        script: None,
        report: Some(report),
    }
}

/// The status that goes with a report.
fn status_of(report: &Report<Any, Event>) -> Status
    ensures { result ≡ outcome_status report.now.blocked report.now.outcome }
{
    match &report.outcome {
        Outcome::Ended => {
            if report.blocked == 0 {
                Status::Done
            } else {
                Status::Blocked
            }
        }
        Outcome::Error { .. } => Status::Error,
        Outcome::Budget => Status::Budget,
    }
}

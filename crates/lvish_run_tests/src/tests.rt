//! Scripts that are run by workers.

ghost use Rattle.std.specs.Prelude.{◌≤◌, ◌<◌};

mod again;
mod gates;
mod native;
mod scripts;

use gates::{Away, Leaving, Meeting, Resting, fork_of_main};
use lvish_calculus::Label;
use lvish_compound::{Any, Event};
use lvish_run::{MOST_STEPS, Open, Outcome, Report, RunFault, TraceEntry, run, run_picks};
use lvish_script::read_script;
use lvish_syntax::Script;
use std::alloc::{AllocError, Global};
use std::sync::Wait;
use std::sync::atomic::Ordering;
use std::test::Fail;
use std::thread::Threads;

/// A word for an outcome.
fn word(outcome: &Outcome<Event>) -> &str {
    match outcome {
        Outcome::Ended => "ended",
        Outcome::Error { .. } => "error",
        Outcome::Budget => "budget",
    }
}

/// The outcome, the steps and the blocked tasks of a report.
fn line_of(alloc: Global, report: &Report<Any, Event>) -> Result<String, AllocError> {
    let word = word(&report.outcome);
    format!(in alloc;
        "{word}, steps {}, blocked {}",
        report.steps, report.blocked
    )
}

/// Whether the states of two reports are equal.
fn same_states(a: &Report<Any, Event>, b: &Report<Any, Event>) -> bool {
    let (a, b) = (a.states.as_slice(), b.states.as_slice());
    a.len() == b.len()
        && a.iter()
            .zip(b.iter())
            .all(|(x, y)| x.content == y.content && x.frozen == y.frozen)
}

/// A run by this many workers within a budget; made again where a growth was refused, or a thread
/// is missing for it.
fn run_at_last<R: Threads + Wait + Sync>(
    rt: &R,
    alloc: Global,
    script: &Script,
    workers: usize,
    budget: u64,
) -> Result<Report<Any, Event>, RunFault>
    requires some { 0 < workers }
    requires few { workers ≤ 8 }
    requires bounded { budget ≤ MOST_STEPS }
{
    match run(rt, alloc, script, workers, budget, &Open) {
        Err(RunFault::Memory | RunFault::NoThread) => {
            run(rt, alloc, script, workers, budget, &Open)
        }
        told => told,
    }
}

/// Runs the script by 1 to 8 workers, this many times each, against one run by picks.
fn alike<R: Threads + Wait + Sync>(
    rt: &R,
    alloc: Global,
    text: &str,
    times: u64,
) -> Result<String, Fail> {
    let script = read_script(alloc, text.as_bytes())?;
    let picked = run_picks(alloc, &script, &[], 100_000)?;
    for workers in 1..9 {
        for _ in 0..times {
            let report = run_at_last(rt, alloc, &script, workers, 100_000)?;
            if !same_states(&report, &picked)
                || line_of(alloc, &report)? != line_of(alloc, &picked)?
            {
                return Ok(line_of(alloc, &report)?);
            }
            if report.by_worker.as_slice().len() != workers {
                return Ok(format!(in alloc; "other workers than {workers}")?);
            }
        }
    }
    Ok(line_of(alloc, &picked)?)
}

#[test]
fn runs_end_alike(rt: HostRuntime) -> Result<(), Fail> {
    let alloc = rt.alloc();
    for (script, line) in [
        (scripts::READ, "ended, steps 6, blocked 0"),
        (scripts::NOTHING, "ended, steps 1, blocked 0"),
        (scripts::BLOCKED, "ended, steps 0, blocked 1"),
        (scripts::TWICE, "ended, steps 7, blocked 0"),
        (scripts::HANDLED, "ended, steps 11, blocked 0"),
        (scripts::CASCADE, "ended, steps 18, blocked 0"),
        (scripts::WAITS, "ended, steps 4, blocked 1"),
        (scripts::TREE, "ended, steps 190, blocked 0"),
    ] {
        assert_eq!(rt; alike(&rt, alloc, script, 20)?.as_str(), line);
    }
    Ok(())
}

#[test]
fn a_crew_comes_and_goes(rt: HostRuntime) -> Result<(), Fail> {
    let alloc = rt.alloc();
    assert_eq!(rt;
        alike(&rt, alloc, scripts::PHASES, 1)?.as_str(),
        "ended, steps 2821, blocked 0"
    );
    Ok(())
}

/// What the run of a script by this many workers within a budget comes to.
fn line_within<R: Threads + Wait + Sync>(
    rt: &R,
    alloc: Global,
    script: &Script,
    workers: usize,
    budget: u64,
) -> Result<String, Fail>
    requires some { 0 < workers }
    requires few { workers ≤ 8 }
    requires bounded { budget ≤ MOST_STEPS }
{
    let report = run_at_last(rt, alloc, script, workers, budget)?;
    Ok(line_of(alloc, &report)?)
}

/// Wherever a budget is used up, before a crew is there, within one, and after it.
#[test]
fn a_budget_ends_a_crew(rt: HostRuntime) -> Result<(), Fail> {
    let alloc = rt.alloc();
    let script = read_script(alloc, scripts::PHASES.as_bytes())?;
    for workers in 1..9 {
        for budget in [1, 127, 128, 129, 200, 400] {
            let line = line_within(&rt, alloc, &script, workers, budget)?;
            let start = format!(in alloc; "budget, steps {budget}, ")?;
            assert!(rt; line.as_str().starts_with(start.as_str()), "{line}");
        }
    }
    Ok(())
}

/// What the report of an error says.
fn error_line(alloc: Global, report: &Report<Any, Event>) -> Result<String, AllocError> {
    let (blocked, states) = (report.blocked, report.states.as_slice().len());
    match &report.outcome {
        Outcome::Error {
            kind,
            variable: Some(variable),
            task,
        } => format!(in alloc; "{kind:?} {variable} {task}, blocked {blocked}, states {states}"),
        Outcome::Error {
            kind,
            variable: None,
            task,
        } => format!(in alloc; "{kind:?} {task}, blocked {blocked}, states {states}"),
        Outcome::Ended => String::from_str(alloc, "ended"),
        Outcome::Budget => String::from_str(alloc, "budget"),
    }
}

/// What the report of the script in conflict says.
fn conflict_of<R: Threads + Wait + Sync>(
    rt: &R,
    alloc: Global,
    workers: usize,
) -> Result<String, Fail>
    requires some { 0 < workers }
    requires few { workers ≤ 8 }
{
    let script = read_script(alloc, scripts::CONFLICT.as_bytes())?;
    let report = run_at_last(rt, alloc, &script, workers, 1000)?;
    Ok(error_line(alloc, &report)?)
}

/// Either of the two tasks that put may be the second.
#[test]
fn errors_end_runs(rt: HostRuntime) -> Result<(), Fail> {
    let alloc = rt.alloc();
    for workers in 1..9 {
        for _ in 0..100 {
            let said = conflict_of(&rt, alloc, workers)?;
            assert!(rt;
                said.as_str() == "Conflict 0 main/1, blocked 0, states 0"
                    || said.as_str() == "Conflict 0 main/2, blocked 0, states 0",
                "{said}"
            );
        }
    }
    Ok(())
}

/// The worker of the task's first step, and 1.
fn mark_of(trace: &[TraceEntry<Event>], number: u64) -> Option<u64> {
    for entry in trace {
        if let Label::Act(task) = &entry.label {
            if fork_of_main(task) == Some(number) {
                return Some((entry.worker as u64).saturating_add(1));
            }
        }
    }
    None
}

#[test]
fn two_workers_meet(rt: HostRuntime) -> Result<(), Fail> {
    let alloc = rt.alloc();
    let script = read_script(alloc, scripts::TWICE.as_bytes())?;
    let gate = Meeting::new();
    let report = run(&rt, alloc, &script, 2, 1000, &gate)?;
    assert_eq!(rt;
        line_of(alloc, &report)?.as_str(),
        "ended, steps 7, blocked 0"
    );
    assert!(rt; !gate.late.load(Ordering::SeqCst));
    let trace = report.trace.entries(alloc)?;
    assert_eq!(rt;
        mark_of(&trace, 1).ok_or("main/1 made no step")?,
        gate.first.load(Ordering::SeqCst)
    );
    assert_eq!(rt;
        mark_of(&trace, 2).ok_or("main/2 made no step")?,
        gate.second.load(Ordering::SeqCst)
    );
    Ok(())
}

#[test]
fn steps_are_made_while_a_worker_is_idle(rt: HostRuntime) -> Result<(), Fail> {
    let alloc = rt.alloc();
    let script = read_script(alloc, scripts::TWICE.as_bytes())?;
    let gate = Resting::new();
    let report = run(&rt, alloc, &script, 2, 1000, &gate)?;
    assert_eq!(rt;
        line_of(alloc, &report)?.as_str(),
        "ended, steps 7, blocked 0"
    );
    assert!(rt; gate.idled.load(Ordering::SeqCst));
    assert!(rt; !gate.late.load(Ordering::SeqCst));
    Ok(())
}

/// Why the run of a script by this many workers has no report where the gate sends a worker away,
/// and whether the gate held a worker for all its turns.
fn sent_away<R: Threads + Wait + Sync>(
    rt: &R,
    alloc: Global,
    script: &Script,
    workers: usize,
) -> (Option<RunFault>, bool)
    requires some { 0 < workers }
    requires few { workers ≤ 8 }
{
    let gate = Away::new();
    let fault = run(rt, alloc, script, workers, 1000, &gate).err();
    (fault, gate.late.load(Ordering::SeqCst))
}

/// The same, by another gate where a growth was refused, or a thread is missing for it.
fn sent_away_at_last<R: Threads + Wait + Sync>(
    rt: &R,
    alloc: Global,
    script: &Script,
    workers: usize,
) -> (Option<RunFault>, bool)
    requires some { 0 < workers }
    requires few { workers ≤ 8 }
{
    match sent_away(rt, alloc, script, workers) {
        (Some(RunFault::Memory | RunFault::NoThread), _) => sent_away(rt, alloc, script, workers),
        told => told,
    }
}

#[test]
fn a_gate_stops_a_run(rt: HostRuntime) -> Result<(), Fail> {
    let alloc = rt.alloc();
    let script = read_script(alloc, scripts::NOTHING.as_bytes())?;
    for workers in 2..4 {
        let told = sent_away_at_last(&rt, alloc, &script, workers);
        assert_eq!(rt; told, (Some(RunFault::Stopped), false));
        assert_eq!(rt; RunFault::Stopped.to_string(alloc)?.as_str(), "stopped");
    }
    Ok(())
}

/// The run of a script by this many workers, of which the gate sends one away at its idle turn with
/// this number; made again where a growth was refused, or a thread is missing for it.
fn left_at_last<R: Threads + Wait + Sync>(
    rt: &R,
    alloc: Global,
    script: &Script,
    workers: usize,
    number: u64,
) -> Result<Report<Any, Event>, RunFault>
    requires some { 0 < workers }
    requires few { workers ≤ 8 }
{
    match run(rt, alloc, script, workers, 1000, &Leaving::at(number)) {
        Err(RunFault::Memory | RunFault::NoThread) => {
            run(rt, alloc, script, workers, 1000, &Leaving::at(number))
        }
        told => told,
    }
}

#[test]
fn a_gate_stops_a_run_in_each_crew(rt: HostRuntime) -> Result<(), Fail> {
    let alloc = rt.alloc();
    let script = read_script(alloc, scripts::CHANGES.as_bytes())?;
    let usual = run_picks(alloc, &script, &[], 1000)?;
    let mut stopped = 0u64;
    for workers in 2..5 {
        for number in 0..12 {
            match left_at_last(&rt, alloc, &script, workers, number) {
                Err(RunFault::Stopped) => stopped = stopped.saturating_add(1),
                Err(fault) => return Err(fault.into()),
                Ok(report) => {
                    assert_eq!(rt;
                        line_of(alloc, &report)?.as_str(),
                        "ended, steps 987, blocked 0"
                    );
                    assert!(rt; same_states(&report, &usual));
                }
            }
        }
    }
    assert!(rt; stopped > 0);
    Ok(())
}

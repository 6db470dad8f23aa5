//! A script's runs, each of them replayed.

ghost use Rattle.std.specs.Prelude.{◌<◌, ◌≤◌, true};

use crate::host::Host;
use crate::replayed::comparing::{is_of_workers, is_same_report, part_otherwise};
use crate::replayed::otherwise::Otherwise;
use crate::replayed::replay_counts::ReplayCounts;
use crate::replayed::replay_question::{MOST_REPLAYED, ReplayQuestion};
use crate::replayed::retracing::retrace;
use lvish_compound::{Any, Event};
use lvish_core::Core;
use lvish_lattice::Plain;
use lvish_names::TaskName;
use lvish_run::{Gate, Open, Report, RunFault, TraceEntry, run, run_picks, trace_text};
use lvish_syntax::Script;
use lvish_task::ScriptCode;
use std::alloc::{AllocError, Global};

/// A gate that holds nobody, and yet has all workers called from the first turn on.
struct Crowd;

impl Gate for Crowd {
    ghost use Rattle.std.specs.Prelude.{true};

    ghost patient = { true };

    fn enter<E: Plain>(&self, _worker: usize, _task: &TaskName<E>) {}

    fn idle(&self, _worker: usize) -> bool {
        true
    }

    fn holds(&self) -> bool {
        true
    }
}

/// The script of the runs with its code, what is asked of them, and the run by no picks.
#[derive(Clone, Copy)]
struct Runs<'s> {
    script: &'s Script,
    code: &'s ScriptCode,
    asked: ReplayQuestion,
    usual: &'s Report<Any, Event>,
}

/// Replays the run by no picks, and those by 1, 2, 3 and 8 workers, who are called where that pays, and at once.
pub fn replay_all<R: Host>(
    rt: &R,
    script: &Script,
    asked: ReplayQuestion,
    counts: &mut ReplayCounts,
) -> Result<(), Otherwise> {
    let code = ScriptCode::new(rt.alloc(), script)?;
    let usual = run_by_picks(rt.alloc(), script, &[], asked.budget)?;
    let runs = Runs {
        script,
        code: &code,
        asked,
        usual: &usual,
    };
    runs.look_at(rt.alloc(), &usual, 1, counts)?;
    runs.by_workers(rt, counts)
}

/// The run by these picks.
fn run_by_picks(
    alloc: Global,
    script: &Script,
    picks: &[u64],
    budget: u64,
) -> Result<Report<Any, Event>, AllocError> {
    run_picks(alloc, script, picks, budget.min(MOST_REPLAYED))
}

/// The run by so many workers at this gate.
fn run_by<R: Host, G: Gate + Sync>(
    rt: &R,
    script: &Script,
    workers: usize,
    budget: u64,
    gate: &G,
) -> Result<Report<Any, Event>, RunFault>
    requires some { 0 < workers }
    requires few { workers ≤ 8 }
{
    run(
        rt,
        rt.alloc(),
        script,
        workers,
        budget.min(MOST_REPLAYED),
        gate,
    )
}

impl<'s> Runs<'s> {
    fn by_workers<R: Host>(&self, rt: &R, counts: &mut ReplayCounts) -> Result<(), Otherwise> {
        self.by(rt, 1, &Open, counts)?;
        self.by(rt, 2, &Open, counts)?;
        self.by(rt, 3, &Open, counts)?;
        self.by(rt, 8, &Open, counts)?;
        self.by(rt, 2, &Crowd, counts)?;
        self.by(rt, 3, &Crowd, counts)?;
        self.by(rt, 8, &Crowd, counts)
    }

    /// Replays the run by so many workers at this gate.
    fn by<R: Host, G: Gate + Sync>(
        &self,
        rt: &R,
        workers: usize,
        gate: &G,
        counts: &mut ReplayCounts,
    ) -> Result<(), Otherwise>
        requires some { 0 < workers }
        requires few { workers ≤ 8 }
    {
        counts.workers = workers;
        let report = run_by(rt, self.script, workers, self.asked.budget, gate)?;
        self.look_at(rt.alloc(), &report, workers, counts)
    }

    /// Replays a report, and compares it with what is asked.
    fn look_at(
        &self,
        alloc: Global,
        report: &Report<Any, Event>,
        workers: usize,
        counts: &mut ReplayCounts,
    ) -> Result<(), Otherwise> {
        let picks = self.picks_of(alloc, report, workers)?;
        if !self.asked.alike {
            self.check_picked(alloc, report, &picks)?;
        } else if !is_same_report(report, self.usual) {
            return Err(Otherwise::Part("unlike the run by picks"));
        }
        counts.add(alloc, report)?;
        Ok(())
    }

    /// The picks that follow from the report's trace, where the report is as its trace has it.
    fn picks_of(
        &self,
        alloc: Global,
        report: &Report<Any, Event>,
        workers: usize,
    ) -> Result<Vec<u64>, Otherwise> {
        let trace = report.trace.entries(alloc)?;
        if !is_of_workers(report, &trace, workers) {
            return Err(Otherwise::Part("other steps of the workers"));
        }
        self.replay(alloc, report, &trace)
    }

    /// Replays the trace, and compares the report with where it leads.
    fn replay(
        &self,
        alloc: Global,
        report: &Report<Any, Event>,
        trace: &[TraceEntry<Event>],
    ) -> Result<Vec<u64>, Otherwise> {
        let mut core = Core::new(alloc, self.code)?;
        let picks = retrace(alloc, &mut core, trace)?;
        let budget = self.asked.budget.min(MOST_REPLAYED);
        match part_otherwise(alloc, &core, report, budget)? {
            None => Ok(picks),
            Some(part) => Err(Otherwise::Part(part)),
        }
    }

    /// The run by the picks has the report's trace, and comes to the same.
    fn check_picked(
        &self,
        alloc: Global,
        report: &Report<Any, Event>,
        picks: &[u64],
    ) -> Result<(), Otherwise> {
        let picked = run_by_picks(alloc, self.script, picks, self.asked.budget)?;
        if is_same_run(alloc, report, &picked)? {
            return Ok(());
        }
        Err(Otherwise::Part("its picks lead elsewhere"))
    }
}

/// Whether two runs have one trace, and come to the same.
fn is_same_run(
    alloc: Global,
    one: &Report<Any, Event>,
    other: &Report<Any, Event>,
) -> Result<bool, AllocError> {
    let text = trace_text(alloc, one)?;
    let is_same = trace_text(alloc, other)?.as_str() == text.as_str();
    Ok(is_same && is_same_report(one, other))
}

//! A program that is no script, run by workers.

ghost use Rattle.std.specs.Prelude.{◌≤◌, ◌<◌};

use super::gates::Crowd;
use crate::native::Countdown;
use lvish_lattice::{GrowSet, Plain};
use lvish_run::{Gate, Open, Outcome, Report, RunFault, run_program, run_program_picks};
use std::alloc::{AllocError, Global};
use std::fmt::Write;
use std::sync::Wait;
use std::test::Fail;
use std::thread::Threads;

/// The outcome, the steps, the blocked tasks, and how many numbers the set has, from which to which.
fn line(alloc: Global, report: &Report<GrowSet<i64>, i64>) -> Result<String, AllocError> {
    let word = match report.outcome {
        Outcome::Ended => "ended",
        Outcome::Error { .. } => "error",
        Outcome::Budget => "budget",
    };
    let mut text = format!(in alloc;
        "{word}, steps {}, blocked {}",
        report.steps, report.blocked
    )?;
    for state in report.states.as_slice() {
        let (mut least, mut greatest) = (i64::MAX, i64::MIN);
        for number in state.content.items() {
            least = least.min(*number);
            greatest = greatest.max(*number);
        }
        write!(
            text,
            ", {} from {least} to {greatest}, frozen {}",
            state.content.len(),
            state.frozen
        )?;
    }
    Ok(text)
}

/// A run by this many workers; made again where a growth was refused, or a thread is missing for it.
fn counted<R: Threads + Wait + Sync, G: Gate + Sync>(
    rt: &R,
    alloc: Global,
    program: &Countdown,
    workers: usize,
    gate: &G,
) -> Result<Report<GrowSet<i64>, i64>, RunFault>
    requires some { 0 < workers }
    requires few { workers ≤ 8 }
{
    match run_program(rt, alloc, program, workers, 10_000, gate) {
        Err(RunFault::Memory | RunFault::NoThread) => {
            run_program(rt, alloc, program, workers, 10_000, gate)
        }
        told => told,
    }
}

/// Five steps for each number but the last, which has two, and main's four.
const COUNTED: &str = "ended, steps 1506, blocked 0, 301 from 0 to 300, frozen true";

#[test]
fn a_native_program_counts_down(rt: HostRuntime) -> Result<(), Fail> {
    let alloc = rt.alloc();
    for grain in [0, 1000] {
        let program = Countdown { first: 300, grain };
        let picked = run_program_picks(alloc, &program, &[], 10_000)?;
        assert_eq!(rt; line(alloc, &picked)?.as_str(), COUNTED);
        for workers in 1..9 {
            let report = counted(&rt, alloc, &program, workers, &Open)?;
            assert_eq!(rt; line(alloc, &report)?.as_str(), COUNTED);
            assert_eq!(rt; report.by_worker.as_slice().len(), workers);
            let report = counted(&rt, alloc, &program, workers, &Crowd)?;
            assert_eq!(rt; line(alloc, &report)?.as_str(), COUNTED);
        }
    }
    Ok(())
}

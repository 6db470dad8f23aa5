//! Runs by picks and by workers, and the runs that their picks make.

ghost use Rattle.std.specs.Prelude.{◌≤◌};

use lvish_again::picks_of;
use lvish_compound::{Any, Event};
use lvish_run::{MOST_STEPS, Open, Report, run, run_picks, trace_text};
use lvish_script::read_script;
use lvish_syntax::Script;
use std::alloc::{AllocError, Global};
use std::test::Fail;

/// Two tasks put different values.
const CONFLICT: &str = "cell a\nproc w n\nput a n\nend\nproc main\nfork w 1\nfork w 2\nend\n";

/// A handler that puts into its own variable.
const CASCADE: &str =
    "set s\npool p s\nproc h k n\nlet c n < 5\nif c\nlet m n + 1\nput s m\nend\nend\nproc main\nhandle p h\nput s 1\nfreeze x s after p\nend\n";

/// The steps of a report in their order, and how many tasks are left.
fn told(alloc: Global, report: &Report<Any, Event>) -> Result<String, AllocError> {
    let trace = trace_text(alloc, report)?;
    let blocked = report.blocked;
    format!(in alloc; "{trace}blocked {blocked}")
}

/// The picks of a report, and what the run tells that they make.
fn again(
    alloc: Global,
    script: &Script,
    report: &Report<Any, Event>,
    budget: u64,
) -> Result<(Vec<u64>, String), Fail>
    requires { budget ≤ MOST_STEPS }
{
    let picks = picks_of(alloc, script, report)?.ok_or("no picks")?;
    let made = run_picks(alloc, script, picks.as_slice(), budget)?;
    Ok((picks, told(alloc, &made)?))
}

/// A pick is a number modulo the count of labels: `main` alone, then `main` and `main/1`. From there on
/// the run takes the first.
#[test]
fn picks_are_found(rt: HostRuntime) -> Result<(), Fail> {
    let alloc = rt.alloc();
    let script = read_script(alloc, CONFLICT.as_bytes())?;
    let report = run_picks(alloc, &script, &[3, 5], 1000)?;
    let (picks, made) = again(alloc, &script, &report, 1000)?;
    assert_eq!(rt; picks.as_slice(), [0, 1].as_slice());
    assert_eq!(rt; made.as_str(), told(alloc, &report)?.as_str());
    Ok(())
}

/// Runs that end, that err and that are stopped.
#[test]
fn runs_by_workers_are_made_again(rt: HostRuntime) -> Result<(), Fail> {
    let alloc = rt.alloc();
    for text in [CONFLICT, CASCADE] {
        let script = read_script(alloc, text.as_bytes())?;
        for workers in 1..5 {
            for budget in [0, 1, 7, 1000] {
                let report = run(&rt, alloc, &script, workers, budget, &Open)?;
                let (_picks, made) = again(alloc, &script, &report, budget)?;
                assert_eq!(rt; made.as_str(), told(alloc, &report)?.as_str());
            }
        }
    }
    Ok(())
}

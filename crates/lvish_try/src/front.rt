//! Few picks that come to an outcome.

ghost use Rattle.std.specs.Prelude.{◌≡◌, ◌≤◌, [], IfOk, IfSome, length};
ghost use Rattle.lvish_calculus.specs.Calculus.{Running, start};
ghost use Rattle.lvish_compound.specs.contracts.event.EventOrd.TheImpl.{ghosts as event_order};
ghost use Rattle.lvish_trace.specs.Traced.{labels_of};
ghost use Rattle.lvish_run.specs.Picked.{IsPicked};
ghost use Rattle.lvish_run.specs.Scripts.{script_machine};
ghost use Rattle.lvish_again.specs.Again.{IsCoreRun, EndsInZero};
ghost use Rattle.lvish_try.specs.Tried.{HasPicks, HasPicksTo, IsFirstFound, IsRunTo, shown};

use crate::shown::{are_same, shown};
use crate::tried::{Found, Picks};
use lvish_again::laws::reports_are_core_runs;
use lvish_again::picks_of;
use lvish_compound::{Any, Event};
use lvish_run::{MOST_STEPS, Report, run_picks};
use lvish_syntax::Script;
use std::alloc::{AllocError, Global};

/// How many of the shortest fronts of a run's picks are tried one by one.
const FEW: usize = 16;

/// Of how many picks at most each is tried as a zero.
const SOME: usize = 64;

/// The run by these picks, where it comes to the outcome with this text.
fn run_to(
    alloc: Global,
    script: &Script,
    picks: &[u64],
    text: &[u8],
    budget: u64,
) -> Result<Option<Report<Any, Event>>, AllocError>
    requires { budget ≤ MOST_STEPS }
    ensures { IfOk result (λ o. IfSome o (λ r. IsRunTo script.now picks.now budget text.now r)) }
{
    let report = run_picks(alloc, script, picks, budget)?;
    let other = shown(alloc, script, &report)?;
    if are_same(other.as_slice(), text) {
        return Ok(Some(report));
    }
    Ok(None)
}

/// How long a front of the picks comes to the outcome with this text: of the shortest fronts the first
/// that does, else one that is found by halving.
fn front_of(
    alloc: Global,
    script: &Script,
    picks: &[u64],
    text: &[u8],
    budget: u64,
) -> Result<usize, AllocError>
    requires { budget ≤ MOST_STEPS }
    ensures { IfOk result (λ n. n ≤ length picks.now) }
{
    let few = FEW.min(picks.len());
    for length in 0..few {
        if let Some(_report) = run_to(alloc, script, &picks[..length], text, budget)? {
            return Ok(length);
        }
    }
    halved(alloc, script, picks, few, text, budget)
}

/// How long a front of the picks comes to the outcome with this text, by halving.
fn halved(
    alloc: Global,
    script: &Script,
    picks: &[u64],
    least: usize,
    text: &[u8],
    budget: u64,
) -> Result<usize, AllocError>
    requires bounded { budget ≤ MOST_STEPS }
    requires least { least ≤ length picks.now }
    ensures { IfOk result (λ n. n ≤ length picks.now) }
{
    let mut low = least;
    let mut high = picks.len();
    while low < high {
        let middle = low + (high - low) / 2;
        match run_to(alloc, script, &picks[..middle], text, budget)? {
            Some(_report) => high = middle,
            None => low = middle + 1,
        }
    }
    Ok(high)
}

/// The picks with a zero in place of each that the outcome with this text doesn't need.
fn simpler(
    alloc: Global,
    script: &Script,
    mut picks: Vec<u64>,
    text: &[u8],
    budget: u64,
) -> Result<Vec<u64>, AllocError>
    requires { budget ≤ MOST_STEPS }
{
    for place in 0..SOME.min(picks.len()) {
        let pick = picks[place];
        if pick != 0 {
            picks[place] = 0;
            if run_to(alloc, script, picks.as_slice(), text, budget)?.is_none() {
                picks[place] = pick;
            }
        }
    }
    Ok(picks)
}

/// A run by few picks that comes to the outcome with this text, as the run of this report does; `None`
/// where none was found.
fn shorter(
    alloc: Global,
    script: &Script,
    report: &Report<Any, Event>,
    text: &[u8],
    budget: u64,
) -> Result<Option<Report<Any, Event>>, AllocError>
    requires { budget ≤ MOST_STEPS }
    ensures { IfOk result (λ o. IfSome o (λ r. HasPicksTo script.now budget text.now r)) }
{
    let Some(picks) = picks_of(alloc, script, report)? else {
        return Ok(None);
    };
    let picks = picks.as_slice();
    let length = front_of(alloc, script, picks, text, budget)?;
    let front = Vec::from_slice(alloc, &picks[..length])?;
    let few = simpler(alloc, script, front, text, budget)?;
    run_to(alloc, script, few.as_slice(), text, budget)
}

/// The picks of a report.
fn picks_that_make(
    alloc: Global,
    script: &Script,
    report: &Report<Any, Event>,
) -> Result<Vec<u64>, AllocError>
    requires { IsCoreRun (script_machine script.now) (labels_of report.now.trace) }
    ensures picks { IfOk result (λ picks. IsPicked event_order.cmp (script_machine script.now) picks.items [] (Running (start (script_machine script.now))) (labels_of report.now.trace)) }
    ensures no_zero { IfOk result (λ picks. EndsInZero picks.items → ⊥) }
{
    match picks_of(alloc, script, report)? {
        Some(picks) => Ok(picks),
        None => unreachable!(),
    }
}

/// The outcome of a run, with the picks that make this run.
fn found_by(
    alloc: Global,
    script: &Script,
    report: Report<Any, Event>,
    budget: u64,
) -> Result<Found, AllocError>
    requires bounded { budget ≤ MOST_STEPS }
    requires report { HasPicks script.now budget report }
    ensures { IfOk result (λ f. IsFirstFound script.now budget (shown script.now report) f) }
{
    reports_are_core_runs();
    let picks = picks_that_make(alloc, script, &report)?;
    Ok(Found {
        times: 1,
        picks: Picks::from(picks),
        report,
    })
}

/// The outcome with this text, to which a run came, with few picks that come to it.
pub fn first_found(
    alloc: Global,
    script: &Script,
    report: Report<Any, Event>,
    text: &[u8],
    budget: u64,
) -> Result<Found, AllocError>
    requires bounded { budget ≤ MOST_STEPS }
    requires report { HasPicks script.now budget report }
    requires text { shown script.now report ≡ text.now }
    ensures { IfOk result (λ f. IsFirstFound script.now budget text.now f) }
{
    match shorter(alloc, script, &report, text, budget)? {
        Some(shorter) => found_by(alloc, script, shorter, budget),
        None => found_by(alloc, script, report, budget),
    }
}

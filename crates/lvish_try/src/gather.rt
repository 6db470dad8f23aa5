//! Runs by drawn picks, and their outcomes.

ghost use Rattle.std.specs.Prelude.{◌≡◌, ◌<◌, ◌≤◌, IfOk, OnOk, length};
ghost use Rattle.lvish_try.specs.Tried.{texts_of, HasPicks, HaveRoom, IsCountedAt, IsNoted, AreFound, AreShown, IsTried};

use crate::draw::drawn_run;
use crate::front::first_found;
use crate::place::place_of;
use crate::shown::{Text, shown};
use crate::tried::{Found, FoundRuns, Tried};
use lvish_compound::{Any, Event};
use lvish_run::{MOST_STEPS, Report};
use lvish_syntax::Script;
use std::alloc::{AllocError, Global};

/// Counts one more run at the outcome at a place.
fn count_at(found: &mut Vec<Found>, place: usize)
    requires there { place < length found.old.items }
    requires room { HaveRoom found.old.items }
    ensures { IsCountedAt place found.old.items found.new.items }
{
    found[place].times += 1;
}

/// Counts the run at the outcome that it came to, or adds that outcome.
fn note(
    alloc: Global,
    script: &Script,
    report: Report<Any, Event>,
    budget: u64,
    texts: &mut Vec<Text>,
    found: &mut Vec<Found>,
) -> Result<(), AllocError>
    requires bounded { budget ≤ MOST_STEPS }
    requires report { HasPicks script.now budget report }
    requires texts { texts.old.items ≡ texts_of script.now found.old.items }
    requires room { HaveRoom found.old.items }
    ensures texts { OnOk result (texts.new.items ≡ texts_of script.now found.new.items) }
    ensures noted { OnOk result (IsNoted script.now budget report found.old.items found.new.items) }
{
    let text = shown(alloc, script, &report)?;
    match place_of(texts.as_slice(), text.as_slice()) {
        Some(place) => {
            count_at(found, place);
            Ok(())
        }
        None => {
            let one = first_found(alloc, script, report, text.as_slice(), budget)?;
            texts.push(text)?;
            found.push(one)?;
            Ok(())
        }
    }
}

/// The outcomes of so many runs.
fn found_runs(
    alloc: Global,
    script: &Script,
    times: u64,
    seed: u64,
    budget: u64,
) -> Result<Vec<Found>, AllocError>
    requires { budget ≤ MOST_STEPS }
    ensures { IfOk result (λ found. AreFound script.now times seed budget found.items) }
{
    let mut texts = Vec::new(alloc);
    let mut found = Vec::new(alloc);
    let mut longest = 0;
    for number in 0..times {
        let report = drawn_run(alloc, script, seed, number, longest, budget)?;
        longest = longest.max(report.steps);
        note(alloc, script, report, budget, &mut texts, &mut found)?;
    }
    Ok(found)
}

/// Makes so many runs of the script within the budget: the first without picks, the others by picks that
/// are drawn for them.
///
/// # Errors
///
/// `AllocError` where a growth was refused.
pub fn try_runs(
    alloc: Global,
    script: &Script,
    times: u64,
    seed: u64,
    budget: u64,
) -> Result<Tried, AllocError>
    requires { budget ≤ MOST_STEPS }
    ensures tried { IfOk result (λ t. IsTried script.now times seed budget t) }
    ensures shown { IfOk result (λ t. AreShown script.now t.found) }
{
    let found = found_runs(alloc, script, times, seed, budget)?;
    Ok(Tried {
        times,
        seed,
        found: FoundRuns::new(found),
    })
}

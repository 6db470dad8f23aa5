//! Runs by picks that are drawn from a seed.

ghost use Rattle.std.specs.Prelude.{◌≡◌, ◌≤◌, IfOk};
ghost use Rattle.lvish_try.specs.Drawn.{words, drawn, IsDrawnRun};

use lvish_compound::{Any, Event};
use lvish_run::{MOST_STEPS, Report, run_picks};
use lvish_syntax::Script;
use rand_core::utils::NextWord;
use rand_pcg::Pcg32;
use std::alloc::{AllocError, Global};

/// The next words of a generator.
fn words(alloc: Global, mut generator: Pcg32, count: u64) -> Result<Vec<u64>, AllocError>
    ensures { IfOk result (λ picks. picks.items ≡ words count generator) }
{
    let mut picks = Vec::new(alloc);
    for _done in 0..count {
        picks.push(u64::from(generator.next_word()))?;
    }
    Ok(picks)
}

/// The first picks that are drawn for the run with this number; none for the first run.
fn drawn(alloc: Global, seed: u64, number: u64, count: u64) -> Result<Vec<u64>, AllocError>
    ensures { IfOk result (λ picks. picks.items ≡ drawn seed number count) }
{
    if number == 0 {
        return Ok(Vec::new(alloc));
    }
    words(alloc, Pcg32::new(seed, number), count)
}

/// The run with this number. It draws twice as many picks as the longest run so far has steps, and as
/// many as the budget allows where it is longer than these.
pub fn drawn_run(
    alloc: Global,
    script: &Script,
    seed: u64,
    number: u64,
    longest: u64,
    budget: u64,
) -> Result<Report<Any, Event>, AllocError>
    requires { budget ≤ MOST_STEPS }
    ensures { IfOk result (λ r. IsDrawnRun script.now seed budget number r) }
{
    let count = longest.saturating_mul(2);
    let picks = drawn(alloc, seed, number, count)?;
    let report = run_picks(alloc, script, picks.as_slice(), budget)?;
    if report.steps <= count {
        return Ok(report);
    }
    let picks = drawn(alloc, seed, number, budget)?;
    run_picks(alloc, script, picks.as_slice(), budget)
}

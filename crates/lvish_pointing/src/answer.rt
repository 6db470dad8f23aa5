ghost use Rattle.std.specs.Prelude.{◌≡◌, ◌⊎◌, ◌<◌, ◌≤◌, false, IfOk, IfErr};
ghost use Rattle.lvish_pointing.specs.Facts.{IsAccepted};
ghost use Rattle.lvish_pointing.specs.Answers.{IsAnswer, IsRefused};

use crate::fault::PointFault;
use crate::listing::{Listed, listing};
use crate::numbering::{constraints_of, names_of};
use crate::reading::read_facts;
use lvish_rules::{MOST_PROGRAM_STEPS, MOST_WORKERS, Ruled, solve};
use std::alloc::Global;
use std::sync::Wait;
use std::thread::Threads;

/// Who points to whom, and what it took.
#[derive(Drop)]
pub struct Pointed {
    /// A line for each that points to anything: its name with a colon, and the names that it points to.
    pub text: Vec<u8>,
    /// Whether that is all; else the budget was used up.
    pub is_whole: bool,
    /// How many names are pointed to, counted at each that points to them.
    pub count: usize,
    /// How many steps it took.
    pub steps: u64,
}

/// Who points to whom by the facts that the text states, found by this many workers in at most as many
/// steps as the budget has, or [`MOST_PROGRAM_STEPS`] if that is less.
///
/// # Errors
///
/// `Line` for the first line on which something is missing; else `Empty` where no line states a fact;
/// `Memory` where a growth was refused; `NoThread` where a thread couldn't be started.
pub fn points_answer<H: Threads + Wait + Sync>(
    rt: &H,
    alloc: Global,
    text: &[u8],
    workers: usize,
    budget: u64,
) -> Result<Pointed, PointFault>
    requires some { 0 < workers }
    requires few { workers ≤ MOST_WORKERS }
    ensures accepted { IfOk result (λ _. IsAccepted text.now) }
    // What is said holds in every solution; and if it is whole, all that does is said.
    ensures answer { IfOk result (λ r. IsAnswer text.now r.is_whole r.text.items r.count) }
    // It is whole, or all steps are used up.
    ensures spent { IfOk result (λ r. r.is_whole ≡ false → (r.steps ≡ budget) ⊎ (r.steps ≡ MOST_PROGRAM_STEPS)) }
    ensures refused { IfErr result (IsRefused text.now) }
{
    let facts = read_facts(alloc, text)?;
    let names = names_of(alloc, facts.as_slice())?;
    let constraints = constraints_of(alloc, names.as_slice(), facts.as_slice())?;
    let answer = solve(rt, alloc, &Ruled { rules: constraints }, workers, budget)?;
    let Listed { text, count } = listing(alloc, names.as_slice(), &answer)?;
    Ok(Pointed {
        text,
        is_whole: answer.is_whole(),
        count,
        steps: answer.steps(),
    })
}

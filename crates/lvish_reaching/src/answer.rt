ghost use Rattle.std.specs.Prelude.{◌≡◌, ◌⊎◌, ◌<◌, ◌≤◌, false, IfOk, IfErr};
ghost use Rattle.lvish_reaching.specs.Edges.{IsAccepted};
ghost use Rattle.lvish_reaching.specs.Answers.{IsAnswer, IsRefused};

use crate::fault::ReachFault;
use crate::listing::{Listed, listing};
use crate::reading::read_graph;
use lvish_facts::Node;
use lvish_facts::laws::gathers;
use lvish_lattice::Lattice;
use lvish_rules::{MOST_PROGRAM_STEPS, MOST_WORKERS, Ruled, solve};
use std::alloc::Global;
use std::sync::Wait;
use std::thread::Threads;

/// What is reached, and what it took.
#[derive(Debug, Drop)]
pub struct Reached {
    /// The names, each on a line of its own, sorted by their bytes.
    pub text: Vec<u8>,
    /// Whether they are all that can be reached; else the budget was used up.
    pub is_whole: bool,
    /// How many names there are.
    pub count: usize,
    /// How many steps it took.
    pub steps: u64,
}

/// What the edges that the text spells reach from the root, by this many workers and at most as many
/// steps as the budget has, or [`MOST_PROGRAM_STEPS`] if that is less.
///
/// # Errors
///
/// `Alone` for the first line of one word alone; else `Empty` where there is no edge; `Memory` where a
/// growth was refused; `NoThread` where a thread couldn't be started.
pub fn reach_answer<H: Threads + Wait + Sync>(
    rt: &H,
    alloc: Global,
    text: &[u8],
    root: &str,
    workers: usize,
    budget: u64,
) -> Result<Reached, ReachFault>
    requires some { 0 < workers }
    requires few { workers ≤ MOST_WORKERS }
    ensures accepted { IfOk result (λ _. IsAccepted text.now) }
    // The names are those of what can be reached: all where the answer is whole, else some.
    ensures answer { IfOk result (λ r. IsAnswer text.now root.now r.is_whole r.text.items r.count) }
    // It is whole, or all steps are used up.
    ensures spent { IfOk result (λ r. r.is_whole ≡ false → (r.steps ≡ budget) ⊎ (r.steps ≡ MOST_PROGRAM_STEPS)) }
    ensures refused { IfErr result (IsRefused text.now) }
{
    gathers::<Node>();
    let analysis = Ruled {
        rules: read_graph(alloc, text, root.as_bytes())?,
    };
    let answer = solve(rt, alloc, &analysis, workers, budget)?;
    let Some(set) = answer.state(0) else {
        unreachable!()
    };
    let nodes = set.events(alloc)?;
    let Listed { text, count } = listing(alloc, &analysis.rules, nodes.as_slice())?;
    Ok(Reached {
        text,
        is_whole: answer.is_whole(),
        count,
        steps: answer.steps(),
    })
}

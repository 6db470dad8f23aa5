ghost use Rattle.std.specs.Prelude.{IfOk, IfErr};
ghost use Rattle.lvish_reaching.specs.Answers.{IsRefused};
ghost use Rattle.lvish_reaching.specs.Edges.{edges_of, IsAccepted};
ghost use Rattle.lvish_reaching.specs.Graphs.{IsGraphOf};

use crate::fault::ReachFault;
use crate::graph::Graph;
use lvish_checks::{lines_of, put_words};
use std::alloc::Global;

/// The graph of the edges that the text spells, with the root.
///
/// # Errors
///
/// `Alone` for the first line of one word alone; else `Empty` where there is no edge; `Memory` where a
/// growth was refused.
pub fn read_graph<'a>(
    alloc: Global,
    text: &'a [u8],
    root: &'a [u8],
) -> Result<Graph<'a>, ReachFault>
    ensures accepted { IfOk result (λ _. IsAccepted text.now) }
    ensures graph { IfOk result (λ g. IsGraphOf g root.now (edges_of text.now)) }
    ensures refused { IfErr result (IsRefused text.now) }
{
    let lines = lines_of(alloc, text)?;
    let mut graph = Graph::of_root(alloc, root)?;
    let mut words = Vec::new(alloc);
    let mut is_empty = true;
    for place in 0..lines.len() {
        put_words(&mut words, lines[place])?;
        if words.len() == 1 {
            return Err(ReachFault::Alone(place + 1));
        }
        if words.len() > 1 {
            is_empty = false;
        }
        graph.add_line(alloc, words.as_slice())?;
    }
    if is_empty {
        return Err(ReachFault::Empty);
    }
    Ok(graph)
}

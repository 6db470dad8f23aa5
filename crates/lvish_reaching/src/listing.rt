ghost use Rattle.std.specs.Prelude.{◌≡◌, ◌↔◌, IfOk, Contains};
ghost use Rattle.lvish_facts.specs.declared.node.Node.{Node as NodeRecord};
ghost use Rattle.lvish_facts.specs.Names.{Word, IsNamed, names_in};
ghost use Rattle.lvish_reaching.specs.Answers.{IsListing};

use crate::graph::Graph;
use lvish_facts::{Node, lines_with, sorted};
use std::alloc::{AllocError, Global};

/// The names of the nodes.
fn names_of<'a>(
    alloc: Global,
    graph: &Graph<'a>,
    nodes: &[Node],
) -> Result<Vec<&'a [u8]>, AllocError>
    ensures { IfOk result (λ names. (w : Word) → Contains (names_in names.items) w ↔ ((n : NodeRecord) × Contains nodes.now n × IsNamed graph.now.names n w)) }
{
    let mut names = Vec::with_capacity(alloc, nodes.len())?;
    for node in nodes {
        if let Some(name) = graph.name(*node) {
            names.push(name)?;
        }
    }
    Ok(names)
}

/// Names, each on a line of its own, sorted by their bytes.
#[derive(Drop)]
pub struct Listed {
    pub text: Vec<u8>,
    /// How many names there are.
    pub count: usize,
}

/// The names of the nodes.
pub fn listing(alloc: Global, graph: &Graph<'_>, nodes: &[Node]) -> Result<Listed, AllocError>
    ensures { IfOk result (λ l. IsListing graph.now nodes.now l.text.items l.count) }
{
    let names = names_of(alloc, graph, nodes)?;
    let sorted = sorted(alloc, names.as_slice())?;
    Ok(Listed {
        text: lines_with(alloc, sorted.as_slice())?,
        count: sorted.len(),
    })
}

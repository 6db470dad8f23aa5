ghost use Rattle.std.specs.Prelude.{◌≡◌, IfOk, Some};
ghost use Rattle.lvish_facts.specs.Gathered.{gathered};
ghost use Rattle.lvish_rules.specs.declared.moves.Move.TheVariants.{Put};

use crate::graph::{Graph, ROOT};
use lvish_facts::{Node, gather};
use lvish_lattice::GrowSet;
use lvish_rules::{Move, Rules};
use std::alloc::{AllocError, Global};

/// That the nodes are reached.
fn reached(alloc: Global, nodes: &[Node]) -> Result<Option<Move<GrowSet<Node>>>, AllocError>
    ensures { IfOk result (λ m. m ≡ Some (Put 0 (gathered nodes.now))) }
{
    Ok(Some(Move::Put(0, gather(alloc, nodes)?)))
}

/// A walk from the root: it is reached, and so are all successors of a node that is.
impl<'a> Rules for Graph<'a> {
    ghost use Rattle.lvish_facts.specs.Gathered.{gathered};
    ghost use Rattle.lvish_reaching.specs.Walk.{no_graph, walking, walking_named};

    type Lat = GrowSet<Node>;

    ghost rule_set = { walking gathered };

    ghost blank = { no_graph };

    fn relations(&self) -> usize {
        1
    }

    fn first(
        &self,
        alloc: Global,
        index: usize,
    ) -> Result<Option<Move<GrowSet<Node>>>, AllocError> {
        match index {
            0 => reached(alloc, &[ROOT]),
            1 => Ok(Some(Move::Watch(0, 0))),
            _ => Ok(None),
        }
    }

    fn fire(
        &self,
        alloc: Global,
        _watch: usize,
        event: &Node,
        index: usize,
    ) -> Result<Option<Move<GrowSet<Node>>>, AllocError> {
        match index {
            0 => reached(alloc, self.successors(*event)),
            _ => Ok(None),
        }
    }

    ghost named = { walking_named gathered };
}

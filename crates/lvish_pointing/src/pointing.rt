ghost use Rattle.std.specs.Prelude.{◌≡◌, ◌+◌, ◌∷◌, [], Some, IfOk, slice_get};
ghost use Rattle.lvish_facts.specs.declared.node.Node.{Node as NodeRecord};
ghost use Rattle.lvish_rules.specs.declared.moves.Move.TheVariants.{Put, Watch};
ghost use Rattle.lvish_rules.specs.Sets.{only};
ghost use Rattle.lvish_pointing.specs.Pointing.{first_of, flow, number_of, then_of, watching_of};

use crate::constraints::Constraints;
use crate::fact::{Kind, NodeFact};
use crate::watching::Watching;
use lvish_facts::Node;
use lvish_lattice::GrowSet;
use lvish_rules::{Move, Rules};
use std::alloc::{AllocError, Global};

/// That the pointer points to the node.
fn point(pointer: Node, node: Node) -> Move<GrowSet<Node>>
    ensures { result ≡ Put pointer.number (only node) }
{
    Move::Put(pointer.number, GrowSet::one(node))
}

/// The sum, unless it is past what numbers hold.
fn sum(left: usize, right: usize) -> Result<usize, AllocError>
    ensures { IfOk result (λ n. n ≡ left + right) }
{
    left.checked_add(right).ok_or(AllocError)
}

/// The number of a watch, among so many names.
fn number_of(count: usize, watching: Watching) -> Result<usize, AllocError>
    ensures { IfOk result (λ n. n ≡ number_of count watching) }
{
    match watching {
        Watching::Into(to) => Ok(to.number),
        Watching::Loading(to) => sum(count, to.number),
        Watching::Storing(from) => sum(sum(count, count)?, from.number),
    }
}

/// The watch of a number, among so many names.
fn watching_of(count: usize, number: usize) -> Option<Watching>
    ensures { result ≡ watching_of count number }
{
    if number < count {
        return Some(Watching::Into(Node { number }));
    }
    let number = number - count;
    if number < count {
        return Some(Watching::Loading(Node { number }));
    }
    let number = number - count;
    if number < count {
        Some(Watching::Storing(Node { number }))
    } else {
        None
    }
}

/// That the pointer is watched so.
fn watch(count: usize, pointer: Node, watching: Watching) -> Result<Move<GrowSet<Node>>, AllocError>
    ensures { IfOk result (λ m. m ≡ Watch pointer.number (number_of count watching)) }
{
    Ok(Move::Watch(pointer.number, number_of(count, watching)?))
}

/// What the fact makes at first.
fn first_of(count: usize, fact: &NodeFact) -> Result<Move<GrowSet<Node>>, AllocError>
    ensures { IfOk result (λ m. m ≡ first_of only count fact.now) }
{
    match fact.kind {
        Kind::Address => Ok(point(fact.left, fact.right)),
        Kind::Copy => watch(count, fact.right, Watching::Into(fact.left)),
        Kind::Load => watch(count, fact.right, Watching::Loading(fact.left)),
        Kind::Store => watch(count, fact.left, Watching::Storing(fact.right)),
    }
}

/// What follows where the watch is handed the node.
fn then_of(count: usize, watching: Watching, node: Node) -> Result<Move<GrowSet<Node>>, AllocError>
    ensures { IfOk result (λ m. then_of only count (Some watching) node ≡ m ∷ []) }
{
    match watching {
        Watching::Into(to) => Ok(point(to, node)),
        Watching::Loading(to) => watch(count, node, Watching::Into(to)),
        Watching::Storing(from) => watch(count, from, Watching::Into(node)),
    }
}

/// Who points to whom: a relation for each name, and a watch for each constraint on it.
impl Rules for Constraints {
    ghost use Rattle.lvish_rules.specs.Sets.{only};
    ghost use Rattle.lvish_pointing.specs.Pointing.{pointing};
    ghost use Rattle.lvish_pointing.specs.PointingLaws.{no_constraints, pointing_named};

    type Lat = GrowSet<Node>;

    ghost rule_set = { λ c. pointing only c.names c.facts };

    ghost blank = { no_constraints };

    fn relations(&self) -> usize {
        self.names
    }

    fn first(
        &self,
        _alloc: Global,
        index: usize,
    ) -> Result<Option<Move<GrowSet<Node>>>, AllocError> {
        match self.facts.as_slice().get(index) {
            Some(fact) => Ok(Some(first_of(self.names, fact)?)),
            None => Ok(None),
        }
    }

    fn fire(
        &self,
        _alloc: Global,
        watch: usize,
        event: &Node,
        index: usize,
    ) -> Result<Option<Move<GrowSet<Node>>>, AllocError> {
        if index > 0 || event.number >= self.names {
            return Ok(None);
        }
        match watching_of(self.names, watch) {
            Some(watching) => Ok(Some(then_of(self.names, watching, *event)?)),
            None => Ok(None),
        }
    }

    ghost named = { λ c. pointing_named only c };
}

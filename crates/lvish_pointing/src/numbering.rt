ghost use Rattle.std.specs.Prelude.{◌≡◌, ◌↔◌, IfOk, Contains, Some, true, length, map, slice_get};
ghost use Rattle.std.specs.List.Sorted.{IsStrictlySortedBy};
ghost use Rattle.std.specs.Ordering.{nat_cmp};
ghost use Rattle.std.specs.Cmp.Lexicographic.{slice_cmp};
ghost use Rattle.lvish_facts.specs.Names.{Word, names_in};
ghost use Rattle.lvish_pointing.specs.Numbers.{spelled, named, names_of, is_inside, AreInside};

use crate::constraints::Constraints;
use crate::fact::{Fact, NodeFact};
use lvish_facts::{Node, sorted};
use lvish_lattice::Items;
use std::alloc::{AllocError, Global};

/// The names of the facts, in their order by bytes, each once.
pub fn names_of<'a>(alloc: Global, facts: &[Fact<&'a [u8]>]) -> Result<Vec<&'a [u8]>, AllocError>
    ensures rising { IfOk result (λ v. IsStrictlySortedBy (slice_cmp nat_cmp) (names_in v.items)) }
    ensures same { IfOk result (λ v. (w : Word) → Contains (names_in v.items) w ↔ Contains (names_of (map spelled facts.now)) w) }
{
    let mut words = Vec::new(alloc);
    for fact in facts {
        words.push(fact.left)?;
        words.push(fact.right)?;
    }
    sorted(alloc, words.as_slice())
}

/// The node of the name.
fn node_of(names: &[&[u8]], name: &[u8]) -> Node
    requires rising { IsStrictlySortedBy (slice_cmp nat_cmp) (names_in names.now) }
    requires there { Contains (names_in names.now) name.now }
    ensures { slice_get (names_in names.now) result.number ≡ Some name.now }
{
    match names.binary_search(&name) {
        Ok(number) => Node { number },
        Err(_) => unreachable!(),
    }
}

/// The fact by its names' nodes.
fn numbered(names: &[&[u8]], fact: &Fact<&[u8]>) -> NodeFact
    requires rising { IsStrictlySortedBy (slice_cmp nat_cmp) (names_in names.now) }
    requires left { Contains (names_in names.now) fact.now.left.now }
    requires right { Contains (names_in names.now) fact.now.right.now }
    ensures named { named (names_in names.now) result ≡ spelled fact.now }
    ensures inside { is_inside (length (names_in names.now)) result ≡ true }
{
    Fact {
        kind: fact.kind,
        left: node_of(names, fact.left),
        right: node_of(names, fact.right),
    }
}

/// The facts by their names' nodes.
fn number_facts(
    alloc: Global,
    names: &[&[u8]],
    facts: &[Fact<&[u8]>],
) -> Result<Vec<NodeFact>, AllocError>
    requires rising { IsStrictlySortedBy (slice_cmp nat_cmp) (names_in names.now) }
    requires there { (w : Word) → Contains (names_of (map spelled facts.now)) w → Contains (names_in names.now) w }
    ensures named { IfOk result (λ v. map (named (names_in names.now)) v.items ≡ map spelled facts.now) }
    ensures inside { IfOk result (λ v. AreInside (length (names_in names.now)) v.items) }
{
    let mut nodes = Vec::with_capacity(alloc, facts.len())?;
    for fact in facts {
        nodes.push(numbered(names, fact))?;
    }
    Ok(nodes)
}

/// The constraints of the facts, over these names.
pub fn constraints_of(
    alloc: Global,
    names: &[&[u8]],
    facts: &[Fact<&[u8]>],
) -> Result<Constraints, AllocError>
    requires rising { IsStrictlySortedBy (slice_cmp nat_cmp) (names_in names.now) }
    requires there { (w : Word) → Contains (names_of (map spelled facts.now)) w → Contains (names_in names.now) w }
    ensures names { IfOk result (λ c. c.names ≡ length (names_in names.now)) }
    ensures named { IfOk result (λ c. map (named (names_in names.now)) c.facts ≡ map spelled facts.now) }
{
    let facts = number_facts(alloc, names, facts)?;
    Ok(Constraints {
        names: names.len(),
        facts: Items::new(facts),
    })
}

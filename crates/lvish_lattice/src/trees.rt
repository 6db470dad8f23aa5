//! The trees in which a set has elements that didn't come in ascending order.

ghost use Rattle.std.specs.Prelude.{◌≡◌, ◌&&◌, not, IfOk, IfErr, [], ◌∷◌, true};
ghost use Rattle.std.specs.BTreeSet.{IsFromIterResult};
ghost use Rattle.std.specs.Set.{sorted_merge, is_member};
ghost use Rattle.std.specs.List.Sorted.{IsStrictlySortedBy};
ghost use Rattle.lvish_lattice.specs.Elements.{has, AreApart};

use crate::lattice::Plain;
use crate::ranked::Ranked;
use crate::row::Row;
use std::alloc::{AllocError, Global};
use std::collections::BTreeSet;

/// Puts the value in its place in the tree.
pub(crate) fn put_in_tree<V: Plain>(
    tree: &mut BTreeSet<Ranked<V>>,
    x: V,
) -> Result<bool, AllocError>
    ensures added { IfOk result (λ added. added ≡ not (is_member V.eq tree.old.keys x)) }
    ensures put { IfOk result (λ _. tree.new.keys ≡ sorted_merge V.cmp true (x ∷ []) tree.old.keys) }
    ensures refused { IfErr result (λ _. tree.new ≡ tree.old) }
{
    let added = tree.insert(Ranked::new(x))?;
    Ok(added)
}

/// Takes the values out of the tree, as far as they are there.
fn take_out<V: Plain>(tree: &mut BTreeSet<Ranked<V>>, values: &[V])
    requires { IsStrictlySortedBy V.cmp tree.old.keys }
    ensures ascending { IsStrictlySortedBy V.cmp tree.new.keys }
    ensures others { (q : V) → has V.cmp tree.new.keys q ≡ (has V.cmp tree.old.keys q && not (has V.cmp values.now q)) }
{
    for x in values {
        tree.remove(&Ranked::new(*x));
    }
}

/// Puts all of the values, of which the tree has none, in their places, or none of them.
pub(crate) fn put_all_in_tree<V: Plain>(
    tree: &mut BTreeSet<Ranked<V>>,
    missing: &[V],
) -> Result<(), AllocError>
    requires ascending { IsStrictlySortedBy V.cmp tree.old.keys }
    requires values { IsStrictlySortedBy V.cmp missing.now }
    requires apart { AreApart V.cmp tree.old.keys missing.now }
    ensures put { IfOk result (λ _. tree.new.keys ≡ sorted_merge V.cmp true missing.now tree.old.keys) }
    ensures refused { IfErr result (λ _. tree.new ≡ tree.old) }
{
    for x in missing {
        if let Err(refused) = put_in_tree(tree, *x) {
            take_out(tree, missing);
            return Err(refused);
        }
    }
    Ok(())
}

/// A tree of two elements.
pub(crate) fn tree_of_two<V: Plain>(
    alloc: Global,
    x: V,
    y: V,
) -> Result<BTreeSet<Ranked<V>>, AllocError>
    ensures { IfOk result (λ t. t.keys ≡ sorted_merge V.cmp true (x ∷ []) (y ∷ [])) }
{
    let mut tree = BTreeSet::new(alloc);
    put_in_tree(&mut tree, y)?;
    put_in_tree(&mut tree, x)?;
    Ok(tree)
}

/// A tree of the elements of a row.
pub(crate) fn tree_of_row<V: Plain>(
    alloc: Global,
    row: &Row<V>,
) -> Result<BTreeSet<Ranked<V>>, AllocError>
    ensures made { IfOk result (λ t. IsFromIterResult V.cmp row.now t) }
    ensures ascending { IsStrictlySortedBy V.cmp row.now }
{
    let ranked = row.as_slice().iter().map(
        |x| -> Ranked<V>
            ensures { result ≡ x.now }
        { Ranked::new(*x) },
    );
    ranked.collect::<BTreeSet<Ranked<V>>>(alloc)
}

/// A tree of the same elements.
pub(crate) fn tree_copy<V: Plain>(
    alloc: Global,
    tree: &BTreeSet<Ranked<V>>,
) -> Result<BTreeSet<Ranked<V>>, AllocError>
    ensures made { IfOk result (λ t. IsFromIterResult V.cmp tree.now.keys t) }
    ensures ascending { IsStrictlySortedBy V.cmp tree.now.keys }
{
    tree.iter().copied().collect::<BTreeSet<Ranked<V>>>(alloc)
}

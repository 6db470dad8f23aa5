ghost use Rattle.std.specs.Prelude.{◌≡◌, ◌↔◌, IfOk, Contains};
ghost use Rattle.std.specs.BTreeSet.{IsFromIterResult};
ghost use Rattle.std.specs.Cmp.Lexicographic.{slice_cmp};
ghost use Rattle.std.specs.List.Sorted.{IsStrictlySortedBy};
ghost use Rattle.std.specs.Ordering.{nat_cmp};
ghost use Rattle.lvish_facts.specs.Names.{Word, by_bytes, lines_with, names_in};

use std::alloc::{AllocError, Global};
use std::collections::BTreeSet;

/// The set of the names.
fn set_of<'a>(alloc: Global, names: &[&'a [u8]]) -> Result<BTreeSet<&'a [u8]>, AllocError>
    ensures { IfOk result (λ set. IsFromIterResult by_bytes names.now set) }
{
    names.iter().copied().collect::<BTreeSet<&[u8]>>(alloc)
}

/// The names of a set in their order.
fn listed<'a>(alloc: Global, set: BTreeSet<&'a [u8]>) -> Result<Vec<&'a [u8]>, AllocError>
    ensures { IfOk result (λ v. v.items ≡ set.entry.keys) }
{
    set.into_iter().collect::<Vec<&[u8]>>(alloc)
}

/// The names in the order of their bytes, each once.
pub fn sorted<'a>(alloc: Global, names: &[&'a [u8]]) -> Result<Vec<&'a [u8]>, AllocError>
    ensures rising { IfOk result (λ v. IsStrictlySortedBy (slice_cmp nat_cmp) (names_in v.items)) }
    ensures same { IfOk result (λ v. (w : Word) → Contains (names_in v.items) w ↔ Contains (names_in names.now) w) }
{
    let set = set_of(alloc, names)?;
    listed(alloc, set)
}

/// The names, each on a line of its own.
pub fn lines_with(alloc: Global, names: &[&[u8]]) -> Result<Vec<u8>, AllocError>
    ensures { IfOk result (λ text. text.items ≡ lines_with (names_in names.now)) }
{
    let mut text = Vec::new(alloc);
    for name in names {
        text.extend_from_slice(name)?;
        text.push(b'\n')?;
    }
    Ok(text)
}

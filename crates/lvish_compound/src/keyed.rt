//! Entries in the order of their keys.

ghost use Rattle.std.specs.Prelude.{◌≡◌, ◌↔◌, ◌++◌, [], IfOk, IsTrue, MatchOption, is_some, Some, None, true, map};
ghost use Rattle.std.specs.List.Sorted.{IsStrictlySortedBy};
ghost use Rattle.lvish_compound.specs.Keyed.{key, at, add_all, has_no, of_key, events_of, events_by};
ghost use Rattle.lvish_lattice.specs.Lattice.{fresh_of};

use crate::entries::Entries;
use crate::key::Key;
use lvish_lattice::Lattice;
use std::alloc::{AllocError, Global};

/// The entries of both lists, joined where they have the same key; `None` where that is top.
pub fn joined<K: Key, L: Lattice>(
    alloc: Global,
    xs: &Entries<K, L>,
    ys: &Entries<K, L>,
) -> Result<Option<Entries<K, L>>, AllocError>
    ensures { IfOk result (λ r. r ≡ add_all K.cmp L.least L.joined xs.now ys.now) }
{
    let mut joined = xs.copy(alloc)?;
    for (key, part) in ys.iter() {
        if !joined.join_at(alloc, *key, part)? {
            return Ok(None);
        }
    }
    Ok(Some(joined))
}

/// Whether each part is at or below what its key holds in the other list.
pub fn is_below<K: Key, L: Lattice>(xs: &Entries<K, L>, ys: &Entries<K, L>) -> bool
    requires above { has_no L.eq L.least xs.now ≡ true }
    ensures { IsTrue result ↔ ((q : K) → L.joined (at K.cmp L.least L.joined xs.now q) (at K.cmp L.least L.joined ys.now q) ≡ Some (at K.cmp L.least L.joined ys.now q)) }
{
    for (key, part) in xs.iter() {
        let Some(held) = ys.get(*key) else {
            return false;
        };
        if !part.leq(held) {
            return false;
        }
    }
    true
}

/// Adds the key with each of the part's events.
fn push_events<K: Copy, E: Copy>(
    events: &mut Vec<(K, E)>,
    of: K,
    part: &[E],
) -> Result<(), AllocError>
    ensures { IfOk result (λ _. events.new.items ≡ events.old.items ++ of_key of part.now) }
{
    for event in part {
        events.push((of, *event))?;
    }
    Ok(())
}

/// The events of each entry, in the order of the entries.
pub fn events<K: Key, L: Lattice>(
    alloc: Global,
    entries: &Entries<K, L>,
) -> Result<Vec<(K, L::Event)>, AllocError>
    ensures { IfOk result (λ v. v.items ≡ events_of L.events_of entries.now) }
{
    let mut events = Vec::new(alloc);
    for (key, part) in entries.iter() {
        let part = part.events(alloc)?;
        push_events(&mut events, *key, &part)?;
    }
    Ok(events)
}

/// What the part brings to the key, `None` where the join there is top.
fn fresh_at<K: Key, L: Lattice>(
    alloc: Global,
    old: &Entries<K, L>,
    of: K,
    part: &L,
) -> Result<Option<Vec<L::Event>>, AllocError>
    ensures { IfOk result (λ r. MatchOption r (L.joined (at K.cmp L.least L.joined old.now of) part.now ≡ None) (λ v. (is_some (L.joined (at K.cmp L.least L.joined old.now of) part.now) ≡ true) × (v.items ≡ fresh_of L.joined L.Event.eq L.events_of (at K.cmp L.least L.joined old.now of) part.now))) }
{
    let Some(held) = old.get(of) else {
        return Ok(Some(part.events(alloc)?));
    };
    let fresh = L::fresh(alloc, held, part)?;
    if fresh.is_empty() && !part.leq(held) {
        return Ok(None);
    }
    Ok(Some(fresh))
}

/// What the entries bring to the old ones, nothing where their join is top.
pub fn fresh<K: Key, L: Lattice>(
    alloc: Global,
    old: &Entries<K, L>,
    put: &Entries<K, L>,
) -> Result<Vec<(K, L::Event)>, AllocError>
    requires ascending { IsStrictlySortedBy K.cmp (map key old.now) }
    ensures { IfOk result (λ v. MatchOption (add_all K.cmp L.least L.joined old.now put.now) (v.items ≡ []) (λ _. v.items ≡ events_by (λ k p. fresh_of L.joined L.Event.eq L.events_of (at K.cmp L.least L.joined old.now k) p) put.now)) }
{
    let mut events = Vec::new(alloc);
    for (key, part) in put.iter() {
        let Some(part) = fresh_at(alloc, old, *key, part)? else {
            return Ok(Vec::new(alloc));
        };
        push_events(&mut events, *key, &part)?;
    }
    Ok(events)
}

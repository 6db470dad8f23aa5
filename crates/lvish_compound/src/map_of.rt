ghost use Rattle.std.specs.Prelude.{◌≡◌, ◌&&◌, [], ◌∷◌, ⊤, MatchOption, List, map, true, false, IfOk, unwrap_or};
ghost use Rattle.std.specs.Option.{option_copied};
ghost use Rattle.std.specs.List.Sorted.{IsStrictlySortedBy, IsStrictlySortedBy-prop};
ghost use Rattle.lvish_compound.specs.Keyed.{key, has_no, of_key, single_entry};
ghost use Rattle.lvish_lattice.specs.Lattice.{fresh_of, renamed};

use crate::entries::Entries;
use crate::entry_iter::EntryIter;
use crate::key::Key;
use crate::keyed;
use lvish_lattice::{Brought, Lattice};
use std::alloc::{AllocError, Global};
use std::fmt;
use std::fmt::Debug;
use std::hash::Hash;

/// A map that only grows: its entries, in the order of their keys. No key holds bottom.
pub struct MapOf<K: Key, L: Lattice> {
    entries: Entries<K, L>,
    ghost ascending: { IsStrictlySortedBy K.cmp (map key entries) } by { IsStrictlySortedBy-prop K.cmp (map key entries) },
    ghost above: { has_no L.eq L.least entries ≡ true },
}

// Written out, so that it is proved once, and not at each exit of a function that owns one.
impl<K: Key, L: Lattice> Drop for MapOf<K, L> {
    fn drop(self) {
        let MapOf { entries: _ } = self;
    }
}

impl<K: Key + Debug, L: Lattice + Debug> Debug for MapOf<K, L> {
    fn fmt<W: fmt::Write>(&self, f: &mut fmt::Formatter<W>) -> fmt::Result {
        f.debug_map().entries(self.entries()).finish()
    }
}

impl<K: Key, L: Lattice> MapOf<K, L> {
    ghost use Rattle.lvish_compound.specs.MapOf.{entries_of, at, joined, map_events_of};

    /// The empty map.
    pub fn new(alloc: Global) -> MapOf<K, L>
        ensures { entries_of result ≡ [] }
    {
        MapOf {
            entries: Entries::new(alloc),
        }
    }

    /// The map with one key, empty where the part is bottom.
    pub fn one(alloc: Global, key: K, part: L) -> Result<MapOf<K, L>, AllocError>
        ensures { IfOk result (λ m. entries_of m ≡ single_entry L.eq L.least key part) }
    {
        if part == L::bottom(alloc) {
            return Ok(MapOf::new(alloc));
        }
        Ok(MapOf::rising(alloc, key, part))
    }

    /// The map with one key, whose part isn't bottom.
    pub(crate) fn rising(alloc: Global, key: K, part: L) -> MapOf<K, L>
        requires { L.eq part L.least ≡ false }
        ensures { entries_of result ≡ (key, part) ∷ [] }
    {
        MapOf {
            entries: Entries::one(alloc, key, part),
        }
    }

    /// The entries in the order of their keys. No part is bottom.
    pub fn entries(&self) -> EntryIter<'_, K, L>
        ensures same { result ≡ entries_of self.now }
        ensures ascending { IsStrictlySortedBy K.cmp (map key (entries_of self.now)) }
        ensures above { has_no L.eq L.least (entries_of self.now) ≡ true }
    {
        self.entries.iter()
    }

    /// The part that the key holds, `None` where it holds bottom.
    pub(crate) fn get(&self, of: K) -> Option<&L>
        ensures { unwrap_or (option_copied result) L.least ≡ at self.now of }
    {
        self.entries.get(of)
    }

    /// The allocator that the entries were made with.
    pub(crate) fn alloc(&self) -> Global {
        self.entries.alloc()
    }
}

/// What is brought to a key.
fn at_key<K: Copy, E: Copy>(key: K, brought: Brought<E>) -> Brought<(K, E)>
    ensures { result ≡ renamed (λ event. (key, event)) brought }
{
    match brought {
        Brought::Nothing => Brought::Nothing,
        Brought::One(event) => Brought::One((key, event)),
        Brought::Top => Brought::Top,
        Brought::Listed => Brought::Listed,
    }
}

impl<K: Key, L: Lattice> PartialEq for MapOf<K, L> {
    ghost use Rattle.std.specs.Cmp.{partial_equiv_from_equiv, and_equiv, on_equiv};
    ghost use Rattle.lvish_compound.specs.MapOf.{alike};
    ghost use Rattle.lvish_compound.specs.laws.MapLaws.{alike_equiv};

    ghost eq = { alike ⟦<(K, L) as PartialEq>⟧.eq };

    ghost laws = { partial_equiv_from_equiv (alike_equiv (and_equiv (on_equiv (λ (t : K × L). t.0) K.Eq.laws) (on_equiv (λ (t : K × L). t.1) L.Eq.laws))) };

    fn eq(&self, other: &MapOf<K, L>) -> bool {
        self.entries.is_equal(&other.entries)
    }
}

impl<K: Key, L: Lattice> Eq for MapOf<K, L> {
    ghost use Rattle.std.specs.Cmp.{and_equiv, on_equiv};
    ghost use Rattle.lvish_compound.specs.laws.MapLaws.{alike_equiv};

    ghost laws = { alike_equiv (and_equiv (on_equiv (λ (t : K × L). t.0) K.Eq.laws) (on_equiv (λ (t : K × L). t.1) L.Eq.laws)) };
}

impl<K: Key + Hash, L: Lattice> Lattice for MapOf<K, L> {
    ghost use Rattle.lvish_compound.specs.MapOf.{empty, joined, map_events_of};

    type Event = (K, L::Event);

    ghost least = { empty };

    ghost joined = { joined };

    ghost events_of = { map_events_of };

    fn bottom(alloc: Global) -> MapOf<K, L> {
        MapOf::new(alloc)
    }

    fn join(&self, alloc: Global, other: &MapOf<K, L>) -> Result<Option<MapOf<K, L>>, AllocError> {
        match keyed::joined(alloc, &self.entries, &other.entries)? {
            Some(entries) => Ok(Some(MapOf { entries })),
            None => Ok(None),
        }
    }

    fn leq(&self, other: &MapOf<K, L>) -> bool {
        keyed::is_below(&self.entries, &other.entries)
    }

    fn events(&self, alloc: Global) -> Result<Vec<(K, L::Event)>, AllocError> {
        keyed::events(alloc, &self.entries)
    }

    fn fresh(
        alloc: Global,
        old: &MapOf<K, L>,
        put: &MapOf<K, L>,
    ) -> Result<Vec<(K, L::Event)>, AllocError> {
        keyed::fresh(alloc, &old.entries, &put.entries)
    }

    fn copy(&self, alloc: Global) -> Result<MapOf<K, L>, AllocError> {
        let entries = self.entries.copy(alloc)?;
        Ok(MapOf { entries })
    }

    fn merge_one(
        &mut self,
        alloc: Global,
        put: &MapOf<K, L>,
    ) -> Result<Brought<(K, L::Event)>, AllocError> {
        let Some((key, part)) = put.entries.only() else {
            return Ok(Brought::Listed);
        };
        let brought = self.entries.add_one(alloc, *key, part)?;
        Ok(at_key(*key, brought))
    }

    fn merge(&mut self, alloc: Global, put: &MapOf<K, L>) -> Result<bool, AllocError> {
        if let Some((key, part)) = put.entries.only() {
            return self.entries.add(alloc, *key, part);
        }
        match self.join(alloc, put)? {
            Some(new) => {
                *self = new;
                Ok(true)
            }
            None => Ok(false),
        }
    }

    ghost use Rattle.std.specs.Prelude.{refl};
    ghost use Rattle.lvish_lattice.specs.Ascending.{ties_are_same};
    ghost use Rattle.lvish_lattice.specs.Plain.{pairs_identical};
    ghost use Rattle.lvish_compound.specs.laws.MapLaws.{alike_identical, map_is_join, map_has_events, events_by_ties};

    ghost identical = { alike_identical (pairs_identical K.eq L.eq K.identical L.Lattice.identical _ (λ p q. refl)) };

    ghost is_join = { map_is_join K.Ord.total (ties_are_same K.cmp K.identical K.matches_eq) L.is_join (L.Eq.laws).refl L.Lattice.identical };

    ghost has_events = { map_has_events K.Ord.total (ties_are_same K.cmp K.identical K.matches_eq) L.is_join (L.Eq.laws).refl L.Lattice.identical L.Event.cmp L.Event.Ord.total (ties_are_same L.Event.cmp L.Event.identical L.Event.matches_eq) (events_by_ties L.Event.matches_eq L.has_events) K.eq L.Event.eq K.matches_eq L.Event.matches_eq };
}

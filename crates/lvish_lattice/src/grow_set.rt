ghost use Rattle.std.specs.Prelude.{◌≡◌, ◌↔◌, [], ◌∷◌, IfOk, IsTrue, Contains, find, length};
ghost use Rattle.std.specs.Set.{is_member};
ghost use Rattle.std.specs.List.Sorted.{IsStrictlySortedBy, IsStrictlySortedBy-prop};

use crate::brought::Brought;
use crate::elements::Elements;
use crate::lattice::{Lattice, Plain, Reads};
use crate::reads::{has_one_value, one_of};
use crate::set_iter::SetIter;
use lvish_base::Items;
use std::alloc::{AllocError, Global};
use std::fmt;
use std::fmt::Debug;
use std::hash::Hash;

/// A set that only grows.
///
/// It is stored as at most one element, as a row, or as a tree.
pub struct GrowSet<V: Plain> {
    items: Elements<V>,
    ghost ascending: { IsStrictlySortedBy V.cmp items } by { IsStrictlySortedBy-prop V.cmp items },
}

// Written out, so that it is proved once, and not at each exit of a function that owns one.
impl<V: Plain> Drop for GrowSet<V> {
    fn drop(self) {
        let GrowSet { items: _ } = self;
    }
}

impl<V: Plain + Debug> Debug for GrowSet<V> {
    fn fmt<W: fmt::Write>(&self, f: &mut fmt::Formatter<W>) -> fmt::Result {
        f.debug_set().entries(self.items()).finish()
    }
}

/// What is waited for: one of a list of elements.
#[derive(Drop)]
pub enum Members<V> {
    In(Items<V>),
}

impl<V> Members<V> {
    ghost use Rattle.lvish_lattice.specs.Members.{listed};

    /// The elements that are waited for, as they were listed.
    pub fn listed(&self) -> &[V]
        ensures { result.now ≡ listed self.now }
    {
        let Members::In(items) = self;
        items.as_slice()
    }
}

impl<V: Plain> GrowSet<V> {
    ghost use Rattle.lvish_lattice.specs.GrowSet.{items_of};

    /// The empty set.
    pub fn new(_alloc: Global) -> GrowSet<V>
        ensures { items_of result ≡ [] }
    {
        GrowSet {
            items: Elements::new(),
        }
    }

    /// The set of one element.
    pub fn one(element: V) -> GrowSet<V>
        ensures { items_of result ≡ element ∷ [] }
    {
        GrowSet {
            items: Elements::one(element),
        }
    }

    /// The set of the listed values, which stand in any order, and may be repeated.
    pub fn of(alloc: Global, values: &[V]) -> Result<GrowSet<V>, AllocError>
        ensures { IfOk result (λ s. (x : V) → Contains (items_of s) x ↔ Contains values.now x) }
    {
        Ok(GrowSet {
            items: Elements::of(alloc, values)?,
        })
    }

    /// The elements in ascending order, each once.
    pub fn items(&self) -> SetIter<'_, V>
        ensures same { result ≡ items_of self.now }
        ensures ascending { IsStrictlySortedBy V.cmp (items_of self.now) }
    {
        self.items.iter()
    }

    /// How many elements there are.
    pub fn len(&self) -> usize
        ensures { result ≡ length (items_of self.now) }
    {
        self.items.len()
    }

    /// Whether the set has the element.
    pub fn has(&self, element: V) -> bool
        ensures { result ≡ is_member V.eq (items_of self.now) element }
    {
        self.items.has(element)
    }
}

impl<V: Plain> PartialEq for GrowSet<V> {
    ghost use Rattle.std.specs.Cmp.{partial_equiv_from_equiv};
    ghost use Rattle.lvish_lattice.specs.GrowSet.{alike, alike_equiv};

    ghost eq = { alike V.eq };

    ghost laws = { partial_equiv_from_equiv (alike_equiv V.Eq.laws) };

    fn eq(&self, other: &GrowSet<V>) -> bool {
        self.items.is_equal(&other.items)
    }
}

impl<V: Plain> Eq for GrowSet<V> {
    ghost use Rattle.lvish_lattice.specs.GrowSet.{alike_equiv};

    ghost laws = { alike_equiv V.Eq.laws };
}

impl<V: Plain + Hash> Lattice for GrowSet<V> {
    ghost use Rattle.lvish_lattice.specs.GrowSet.{empty, joined, items_of};

    type Event = V;

    ghost least = { empty };

    ghost joined = { joined };

    ghost events_of = { items_of };

    fn bottom(alloc: Global) -> GrowSet<V> {
        GrowSet::new(alloc)
    }

    fn join(&self, alloc: Global, other: &GrowSet<V>) -> Result<Option<GrowSet<V>>, AllocError> {
        let items = self.items.joined(alloc, &other.items)?;
        Ok(Some(GrowSet { items }))
    }

    fn leq(&self, other: &GrowSet<V>) -> bool {
        self.items.is_within(&other.items)
    }

    fn events(&self, alloc: Global) -> Result<Vec<V>, AllocError> {
        self.items.to_vec(alloc)
    }

    fn fresh(alloc: Global, old: &GrowSet<V>, put: &GrowSet<V>) -> Result<Vec<V>, AllocError> {
        old.items.beyond(alloc, &put.items)
    }

    fn copy(&self, alloc: Global) -> Result<GrowSet<V>, AllocError> {
        Ok(GrowSet {
            items: self.items.copy(alloc)?,
        })
    }

    fn merge_one(&mut self, alloc: Global, put: &GrowSet<V>) -> Result<Brought<V>, AllocError> {
        let Some(x) = put.items.only() else {
            return Ok(Brought::Listed);
        };
        if self.items.put(alloc, x)? {
            Ok(Brought::One(x))
        } else {
            Ok(Brought::Nothing)
        }
    }

    fn merge(&mut self, alloc: Global, put: &GrowSet<V>) -> Result<bool, AllocError> {
        if let Some(x) = put.items.only() {
            self.items.put(alloc, x)?;
            return Ok(true);
        }
        self.items.put_all(alloc, &put.items)?;
        Ok(true)
    }

    ghost use Rattle.lvish_lattice.specs.Ascending.{ties_are_same};
    ghost use Rattle.lvish_lattice.specs.GrowSet.{alike_identical, set_is_join, set_has_events};

    ghost identical = { alike_identical V.identical };

    ghost is_join = { set_is_join V.Ord.total (ties_are_same V.cmp V.identical V.matches_eq) };

    ghost has_events = { set_has_events V.Ord.total V.eq V.matches_eq };
}

/// The first of the listed values that the set has.
fn first_held<V: Plain>(listed: &[V], items: &Elements<V>) -> Option<V>
    ensures { result ≡ find (is_member V.eq items.now) listed.now }
{
    listed.iter().copied().find(|x| items.has(*x))
}

impl<V: Plain + Hash> Reads for GrowSet<V> {
    ghost use Rattle.lvish_lattice.specs.Members.{Member, answer_of, spot_of, watched};
    ghost use Rattle.lvish_lattice.specs.laws.MembersLaws.{sets_answer, sets_wait};

    type Read = Members<V>;

    type Answer = V;

    type Spot = V;

    ghost member = { Member };

    ghost answer_of = { answer_of V.eq };

    ghost spot_of = { spot_of };

    ghost watched = { watched V.eq };

    fn check(read: &Members<V>) -> bool {
        has_one_value(read.listed())
    }

    fn trigger(read: &Members<V>, state: &GrowSet<V>) -> Option<V> {
        first_held(read.listed(), &state.items)
    }

    fn spot(event: &V) -> V {
        *event
    }

    fn watch(read: &Members<V>) -> Option<V> {
        one_of(read.listed())
    }

    ghost waits = { sets_wait V.Ord.total V.eq V.matches_eq V.identical };

    ghost answers = { sets_answer V.Ord.total V.eq V.matches_eq V.identical };
}

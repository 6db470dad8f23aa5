ghost use Rattle.std.specs.Prelude.{◌≡◌, [], None, Some, MatchResult};
ghost use Rattle.std.specs.List.Sorted.{IsStrictlySortedBy};
ghost use Rattle.lvish_names.specs.NameOrder.{handler_cmp};
ghost use Rattle.lvish_core.specs.Places.{PlacesAt, place_at, handlers_of};

use crate::handler_place::HandlerPlace;
use lvish_lattice::Plain;
use lvish_names::HandlerName;
use std::alloc::{AllocError, Global};
use std::collections::BTreeMap;
use std::collections::btree_map::Iter;
use std::marker::Model;

/// Where each handler is, in the order of names.
pub(crate) struct Places<E: Ord> {
    places: BTreeMap<HandlerName<E>, HandlerPlace>,
}

// Written out, so that it is proved once, and not at each exit of a function that owns one.
impl<E: Ord + Drop> Drop for Places<E> {
    fn drop(self) {
        let Places { places: _ } = self;
    }
}

impl<E: Ord> Model for Places<E> {
    ghost use Rattle.std.specs.Prelude.{List};
    ghost use Rattle.lvish_names.specs.Names.{Handler};
    ghost use Rattle.lvish_core.specs.declared.handler_place.HandlerPlace.{HandlerPlace};

    ghost Value = { List (Handler E × HandlerPlace) };

    ghost view = { λ p. p.places.entries };
}

impl<E: Plain> Places<E> {
    pub fn new(alloc: Global) -> Places<E>
        ensures { result ≡ [] }
    {
        Places {
            places: BTreeMap::new(alloc),
        }
    }

    /// Where the handler of this name is.
    pub fn get(&self, name: &HandlerName<E>) -> Option<HandlerPlace>
        ensures { result ≡ place_at E.eq self.now name.now }
    {
        self.places.get(name).copied()
    }

    /// The handlers in the order of their names.
    pub fn iter(&self) -> Iter<'_, HandlerName<E>, HandlerPlace>
        ensures all { result ≡ self.now }
        ensures ascending { IsStrictlySortedBy (handler_cmp E.cmp) (handlers_of self.now) }
    {
        self.places.iter()
    }

    /// Adds a handler.
    pub fn insert(&mut self, name: HandlerName<E>, place: HandlerPlace) -> Result<(), AllocError>
        ensures { MatchResult result (λ _. PlacesAt E.eq self.old name (Some place) self.new) (λ _. self.new ≡ self.old) }
    {
        self.places.insert(name, place)?;
        Ok(())
    }

    /// Takes a handler out.
    pub fn remove(&mut self, name: &HandlerName<E>)
        ensures { PlacesAt E.eq self.old name.now None self.new }
    {
        self.places.remove(name);
    }
}

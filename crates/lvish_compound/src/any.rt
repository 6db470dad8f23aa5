ghost use Rattle.std.specs.Prelude.{◌≡◌, ◌⊎◌, ◌↔◌, ◌≤◌, ◌^◌, Some, None, IfOk, IfErr, IsErr, MatchOption, [], cond, length, pos, ◌<ℤ◌};
ghost use Rattle.lvish_compound.specs.Parts.{is_empty};
ghost use Rattle.lvish_compound.specs.Refusals.{IsNoSide, IsNoPart, IsBeyond};
ghost use Rattle.lvish_compound.specs.declared.amount_fault.AmountFault.TheVariants as fault;

use crate::above::Above;
use crate::amount_fault::AmountFault;
use crate::any_events::{
    entry_brought, entry_events, events_in_map, events_in_part, fresh_in_part, merge_part,
    side_events, tally_events,
};
use crate::event::Event;
use crate::map_of::MapOf;
use crate::pair::Pair;
use crate::part::Part;
use crate::sides::Sides;
use crate::tally::Tally;
use lvish_lattice::{Brought, Flat, GrowSet, HIGHEST_LEVEL, Lattice, MaxCounter, Range};
use std::alloc::{AllocError, Global};
use thiserror::Error;

/// A state of a script's variable: a part, a map above its bottom, a pair of parts that aren't
/// both empty, or a tally above its bottom.
///
/// Bottom is the empty part. Different kinds join to top.
#[derive(Debug)]
pub enum Any {
    Part(Part),
    Map(Above<MapOf<i64, Flat<i64>>>),
    Sides(Sides),
    Tally(Above<Tally>),
}

/// The refusal of what isn't a side of a pair: a map, a pair, a tally, or a number other than 1
/// and 2.
#[derive(Clone, Copy, Debug, PartialEq, Eq, Error)]
#[error("a side is a cell, a set or a counter, and its number 1 or 2")]
pub struct Wrong;

// Written out, so that it is proved once, and not at each exit of a function that owns one.
impl Drop for Any {
    fn drop(self) {
        match self {
            Any::Part(_) => {}
            Any::Map(_) => {}
            Any::Sides(_) => {}
            Any::Tally(_) => {}
        }
    }
}

impl Any {
    ghost use Rattle.lvish_compound.specs.States.{cell, set, counter, entry, amount, side, of_map, of_pair, of_tally, unless_part, events_of};

    /// A cell with a value.
    pub fn cell(value: i64) -> Any
        ensures { result ≡ cell value }
    {
        Any::Part(Part::Cell(value))
    }

    /// The set of one element.
    pub fn set(_alloc: Global, element: i64) -> Result<Any, AllocError>
        ensures { IfOk result (λ s. s ≡ set element) }
    {
        let set = GrowSet::one(element);
        Ok(Any::Part(Part::Set(Above::rising(set))))
    }

    /// The counter that holds the number, where it is from 0 to `HIGHEST_LEVEL`; at 0 it is empty.
    pub fn counter(number: i64) -> Result<Any, Range>
        ensures ok { IfOk result (λ s. counter number ≡ Some s) }
        ensures range { IfErr result (λ _. counter number ≡ None) }
        ensures refused { IsErr result ↔ ((number <ℤ pos 0) ⊎ (pos HIGHEST_LEVEL <ℤ number)) }
    {
        let max = MaxCounter::new(number)?;
        if number == 0 {
            return Ok(Any::Part(Part::Empty));
        }
        Ok(Any::Part(Part::Max(Above::rising(max))))
    }

    /// The map of one key and its value.
    pub fn entry(alloc: Global, key: i64, value: i64) -> Result<Any, AllocError>
        ensures { IfOk result (λ s. s ≡ entry key value) }
    {
        let map = MapOf::rising(alloc, key, Flat::Value(value));
        Ok(Any::Map(Above::rising(map)))
    }

    /// The tally in which the key has the amount, where that is from 0 to `HIGHEST_LEVEL`; at 0 it is empty.
    pub fn amount(alloc: Global, key: i64, number: i64) -> Result<Any, AmountFault>
        ensures ok { IfOk result (λ s. amount key number ≡ Some s) }
        ensures why { IfErr result (λ f. (f ≡ fault.Range) ↔ IsBeyond number) }
    {
        let amount = MaxCounter::new(number)?;
        let tally = Tally::one(alloc, key, amount)?;
        Ok(Any::of_tally(alloc, tally))
    }

    /// The state as side 1 or 2 of a pair, the other side empty.
    pub fn side(number: u8, state: Any) -> Result<Any, Wrong>
        ensures ok { IfOk result (λ s. side number state ≡ Some s) }
        ensures wrong { IfErr result (λ _. side number state ≡ None) }
        ensures refused { IsErr result ↔ (IsNoSide number ⊎ IsNoPart state) }
    {
        let Any::Part(part) = state else {
            return Err(Wrong);
        };
        match number {
            1 => Ok(Any::of_pair(Pair::new(part, Part::Empty))),
            2 => Ok(Any::of_pair(Pair::new(Part::Empty, part))),
            _ => Err(Wrong),
        }
    }

    /// How many events there are, with no list of them; `None` where there are more than can be
    /// counted.
    pub fn event_count(&self) -> Option<usize>
        ensures { MatchOption result (2 ^ 64 ≤ length (events_of self.now)) (λ n. n ≡ length (events_of self.now)) }
    {
        match self {
            Any::Part(a) => Some(a.event_count()),
            // Each key of a map of cells has one event, since no key holds bottom.
            Any::Map(a) => Some(a.state.entries().len()),
            Any::Sides(a) => a.event_count(),
            Any::Tally(a) => Some(a.state.event_count()),
        }
    }

    /// A map, empty where it has no entry.
    fn of_map(alloc: Global, map: MapOf<i64, Flat<i64>>) -> Any
        ensures { result ≡ of_map map }
    {
        match Above::of(alloc, map) {
            Some(map) => Any::Map(map),
            None => Any::Part(Part::Empty),
        }
    }

    /// Two parts, empty where both are.
    fn of_pair(pair: Pair<Part, Part>) -> Any
        ensures { result ≡ of_pair pair }
    {
        match Sides::of(pair) {
            Some(sides) => Any::Sides(sides),
            None => Any::Part(Part::Empty),
        }
    }

    /// A tally, empty where it has no entry.
    fn of_tally(alloc: Global, tally: Tally) -> Any
        ensures { result ≡ of_tally tally }
    {
        match Above::of(alloc, tally) {
            Some(tally) => Any::Tally(tally),
            None => Any::Part(Part::Empty),
        }
    }

    /// The join of a part with a state of another kind.
    fn unless_part(alloc: Global, part: &Part, state: &Any) -> Result<Option<Any>, AllocError>
        ensures { IfOk result (λ r. r ≡ unless_part part.now state.now) }
    {
        match part {
            Part::Empty => Ok(Some(state.copy(alloc)?)),
            _ => Ok(None),
        }
    }

    /// What a state of another kind brings to a part: all its events, or none where that is top.
    fn fresh_to_part(alloc: Global, part: &Part, put: &Any) -> Result<Vec<Event>, AllocError>
        ensures { IfOk result (λ v. v.items ≡ cond (is_empty part.now) (events_of put.now) []) }
    {
        if part.is_empty() {
            put.events(alloc)
        } else {
            Ok(Vec::new(alloc))
        }
    }
}

impl PartialEq for Any {
    ghost use Rattle.std.specs.Cmp.{partial_equiv_from_equiv};
    ghost use Rattle.lvish_compound.specs.States.{alike};
    ghost use Rattle.lvish_compound.specs.laws.StateLaws.{alike_equiv};

    ghost eq = { alike };

    ghost laws = { partial_equiv_from_equiv alike_equiv };

    fn eq(&self, other: &Any) -> bool {
        match (self, other) {
            (Any::Part(a), Any::Part(b)) => a == b,
            (Any::Map(a), Any::Map(b)) => a.state == b.state,
            (Any::Sides(a), Any::Sides(b)) => a == b,
            (Any::Tally(a), Any::Tally(b)) => a.state == b.state,
            _ => false,
        }
    }
}

impl Eq for Any {
    ghost use Rattle.lvish_compound.specs.laws.StateLaws.{alike_equiv};

    ghost laws = { alike_equiv };
}

impl Lattice for Any {
    ghost use Rattle.lvish_compound.specs.States.{nothing, joined, events_of};

    type Event = Event;

    ghost least = { nothing };

    ghost joined = { joined };

    ghost events_of = { events_of };

    fn bottom(_alloc: Global) -> Any {
        Any::Part(Part::Empty)
    }

    fn join(&self, alloc: Global, other: &Any) -> Result<Option<Any>, AllocError> {
        match (self, other) {
            (Any::Part(a), Any::Part(b)) => match a.join(alloc, b)? {
                Some(part) => Ok(Some(Any::Part(part))),
                None => Ok(None),
            },
            (Any::Map(a), Any::Map(b)) => match a.state.join(alloc, &b.state)? {
                Some(map) => Ok(Some(Any::of_map(alloc, map))),
                None => Ok(None),
            },
            (Any::Sides(a), Any::Sides(b)) => match a.pair().join(alloc, b.pair())? {
                Some(pair) => Ok(Some(Any::of_pair(pair))),
                None => Ok(None),
            },
            (Any::Tally(a), Any::Tally(b)) => match a.state.join(alloc, &b.state)? {
                Some(tally) => Ok(Some(Any::of_tally(alloc, tally))),
                None => Ok(None),
            },
            (Any::Part(part), state) => Any::unless_part(alloc, part, state),
            (state, Any::Part(part)) => Any::unless_part(alloc, part, state),
            _ => Ok(None),
        }
    }

    fn leq(&self, other: &Any) -> bool {
        match (self, other) {
            (Any::Part(a), Any::Part(b)) => a.leq(b),
            (Any::Map(a), Any::Map(b)) => a.state.leq(&b.state),
            (Any::Sides(a), Any::Sides(b)) => a.pair().leq(b.pair()),
            (Any::Tally(a), Any::Tally(b)) => a.state.leq(&b.state),
            (Any::Part(a), _) => a.is_empty(),
            _ => false,
        }
    }

    fn events(&self, alloc: Global) -> Result<Vec<Event>, AllocError> {
        match self {
            Any::Part(a) => events_in_part(alloc, a),
            Any::Map(a) => events_in_map(alloc, &a.state),
            Any::Sides(a) => side_events(alloc, &a.pair().events(alloc)?),
            Any::Tally(a) => tally_events(alloc, &a.state.events(alloc)?),
        }
    }

    fn fresh(alloc: Global, old: &Any, put: &Any) -> Result<Vec<Event>, AllocError> {
        match (old, put) {
            (Any::Part(a), Any::Part(b)) => fresh_in_part(alloc, a, b),
            (Any::Map(a), Any::Map(b)) => {
                entry_events(alloc, &MapOf::fresh(alloc, &a.state, &b.state)?)
            }
            (Any::Sides(a), Any::Sides(b)) => {
                side_events(alloc, &Pair::fresh(alloc, a.pair(), b.pair())?)
            }
            (Any::Tally(a), Any::Tally(b)) => {
                tally_events(alloc, &Tally::fresh(alloc, &a.state, &b.state)?)
            }
            (Any::Part(a), Any::Map(_)) => Any::fresh_to_part(alloc, a, put),
            (Any::Part(a), Any::Sides(_)) => Any::fresh_to_part(alloc, a, put),
            (Any::Part(a), Any::Tally(_)) => Any::fresh_to_part(alloc, a, put),
            (Any::Map(_), Any::Part(_)) => Ok(Vec::new(alloc)),
            (Any::Map(_), Any::Sides(_)) => Ok(Vec::new(alloc)),
            (Any::Map(_), Any::Tally(_)) => Ok(Vec::new(alloc)),
            (Any::Sides(_), Any::Part(_)) => Ok(Vec::new(alloc)),
            (Any::Sides(_), Any::Map(_)) => Ok(Vec::new(alloc)),
            (Any::Sides(_), Any::Tally(_)) => Ok(Vec::new(alloc)),
            (Any::Tally(_), Any::Part(_)) => Ok(Vec::new(alloc)),
            (Any::Tally(_), Any::Map(_)) => Ok(Vec::new(alloc)),
            (Any::Tally(_), Any::Sides(_)) => Ok(Vec::new(alloc)),
        }
    }

    fn copy(&self, alloc: Global) -> Result<Any, AllocError> {
        match self {
            Any::Part(a) => Ok(Any::Part(a.copy(alloc)?)),
            Any::Map(a) => Ok(Any::Map(a.copy(alloc)?)),
            Any::Sides(a) => Ok(Any::Sides(a.copy(alloc)?)),
            Any::Tally(a) => Ok(Any::Tally(a.copy(alloc)?)),
        }
    }

    fn merge_one(&mut self, alloc: Global, put: &Any) -> Result<Brought<Event>, AllocError> {
        match self {
            Any::Part(a) => match put {
                Any::Part(b) => merge_part(a, alloc, b),
                _ => Ok(Brought::Listed),
            },
            Any::Map(a) => match put {
                Any::Map(b) => Ok(entry_brought(a.merge_one(alloc, b)?)),
                _ => Ok(Brought::Listed),
            },
            _ => Ok(Brought::Listed),
        }
    }

    fn merge(&mut self, alloc: Global, put: &Any) -> Result<bool, AllocError> {
        match self {
            Any::Part(a) => match put {
                Any::Part(b) => a.merge(alloc, b),
                _ => {
                    if !a.is_empty() {
                        return Ok(false);
                    }
                    *self = put.copy(alloc)?;
                    Ok(true)
                }
            },
            Any::Map(a) => match put {
                Any::Part(b) => Ok(b.is_empty()),
                Any::Map(b) => a.merge(alloc, b),
                _ => Ok(false),
            },
            Any::Sides(a) => match put {
                Any::Part(b) => Ok(b.is_empty()),
                Any::Sides(b) => a.merge(alloc, b),
                _ => Ok(false),
            },
            Any::Tally(a) => match put {
                Any::Part(b) => Ok(b.is_empty()),
                Any::Tally(b) => a.merge(alloc, b),
                _ => Ok(false),
            },
        }
    }

    ghost use Rattle.std.specs.Prelude.{refl};
    ghost use Rattle.lvish_compound.specs.laws.StateLaws.{alike_identical, any_is_join};
    ghost use Rattle.lvish_compound.specs.laws.StateEvents.{any_has_events, by_name, by_rank};

    ghost identical = { alike_identical };

    ghost is_join = { any_is_join };

    ghost has_events = { any_has_events ⟦<Event as PartialEq>⟧.eq (by_name _ (λ d e. refl)) ⟦<Event as Ord>⟧.cmp (by_rank _ (λ d e. refl)) };
}

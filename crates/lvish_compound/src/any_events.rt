//! The events of a script's variables, named by key, kind and number.

ghost use Rattle.std.specs.Prelude.{◌≡◌, IfOk, IfErr, map, pos};
ghost use Rattle.lvish_lattice.specs.GrowSet.{items_of};
ghost use Rattle.lvish_lattice.specs.Lattice.{fresh_of, IsOutcome, renamed};
ghost use Rattle.lvish_compound.specs.EventNames.{part_event, number_event, entry_event, side_event, tally_event};
ghost use Rattle.lvish_compound.specs.MapOf.{map_events_of};
ghost use Rattle.lvish_compound.specs.Parts.{joined, events_of};
ghost use Rattle.lvish_compound.specs.declared.kind.Kind.TheVariants as kind;

use crate::event::Event;
use crate::kind::Kind;
use crate::map_of::MapOf;
use crate::part::{Part, PartEvent};
use crate::side_of::SideOf;
use lvish_lattice::{Brought, Flat, GrowSet, Lattice, MaxCounter};
use std::alloc::{AllocError, Global};

/// The event of a part under a key.
fn part_event(key: i64, event: PartEvent) -> Event
    ensures { result ≡ part_event key event }
{
    let (kind, number) = match event {
        SideOf::One(number) => (Kind::Cell, number),
        SideOf::Two(SideOf::One(number)) => (Kind::Set, number),
        SideOf::Two(SideOf::Two(number)) => (Kind::Max, number),
    };
    Event { key, kind, number }
}

/// The event of a side, under its number.
fn side_event(event: SideOf<PartEvent, PartEvent>) -> Event
    ensures { result ≡ side_event event }
{
    match event {
        SideOf::One(event) => part_event(1, event),
        SideOf::Two(event) => part_event(2, event),
    }
}

pub(crate) fn part_events(alloc: Global, events: &[PartEvent]) -> Result<Vec<Event>, AllocError>
    ensures { IfOk result (λ v. v.items ≡ map (part_event (pos 0)) events.now) }
{
    let mut named = Vec::with_capacity(alloc, events.len())?;
    for event in events {
        named.push_reserved(part_event(0, *event));
    }
    Ok(named)
}

/// The events of a set that is a variable of its own, made straight from its elements.
fn element_events(alloc: Global, set: &GrowSet<i64>) -> Result<Vec<Event>, AllocError>
    ensures { IfOk result (λ v. v.items ≡ map (number_event kind.Set) (items_of set.now)) }
{
    let mut named = Vec::with_capacity(alloc, set.len())?;
    for number in set.items() {
        named.push(number_event(Kind::Set, *number))?;
    }
    Ok(named)
}

/// The events of a part that is a variable of its own.
pub(crate) fn events_in_part(alloc: Global, part: &Part) -> Result<Vec<Event>, AllocError>
    ensures { IfOk result (λ v. v.items ≡ map (part_event (pos 0)) (events_of part.now)) }
{
    match part {
        Part::Set(a) => element_events(alloc, &a.state),
        Part::Max(a) => numbered(alloc, Kind::Max, &a.state.events(alloc)?),
        _ => part_events(alloc, &part.events(alloc)?),
    }
}

/// The events of a map of cells, made straight from its entries.
pub(crate) fn events_in_map(
    alloc: Global,
    state: &MapOf<i64, Flat<i64>>,
) -> Result<Vec<Event>, AllocError>
    ensures { IfOk result (λ v. v.items ≡ map entry_event (map_events_of state.now)) }
{
    let entries = state.entries();
    let mut named = Vec::with_capacity(alloc, entries.len())?;
    for (key, cell) in entries {
        if let Flat::Value(number) = cell {
            named.push(entry_event(*key, *number))?;
        }
    }
    Ok(named)
}

/// The events that a put brings to a part.
///
/// Those of a set and of a counter, which may be many, are made straight from the numbers, with no
/// list of a part's events between.
pub(crate) fn fresh_in_part(alloc: Global, old: &Part, put: &Part) -> Result<Vec<Event>, AllocError>
    ensures { IfOk result (λ v. v.items ≡ map (part_event (pos 0)) (fresh_of joined ⟦<PartEvent as PartialEq>⟧.eq events_of old.now put.now)) }
{
    match (old, put) {
        (Part::Set(a), Part::Set(b)) => {
            let numbers = GrowSet::fresh(alloc, &a.state, &b.state)?;
            numbered(alloc, Kind::Set, &numbers)
        }
        (Part::Max(a), Part::Max(b)) => {
            let numbers = MaxCounter::fresh(alloc, &a.state, &b.state)?;
            numbered(alloc, Kind::Max, &numbers)
        }
        _ => part_events(alloc, &Part::fresh(alloc, old, put)?),
    }
}

/// The event of a set or a counter.
fn number_event(kind: Kind, number: i64) -> Event
    ensures { result ≡ number_event kind number }
{
    Event {
        key: 0,
        kind,
        number,
    }
}

/// The event of a map.
fn entry_event(key: i64, number: i64) -> Event
    ensures { result ≡ entry_event (key, number) }
{
    Event {
        key,
        kind: Kind::Map,
        number,
    }
}

/// The events of a set or a counter with these numbers.
fn numbered(alloc: Global, kind: Kind, numbers: &[i64]) -> Result<Vec<Event>, AllocError>
    ensures { IfOk result (λ v. v.items ≡ map (number_event kind) numbers.now) }
{
    let mut named = Vec::with_capacity(alloc, numbers.len())?;
    for number in numbers {
        named.push_reserved(number_event(kind, *number));
    }
    Ok(named)
}

pub(crate) fn entry_events(alloc: Global, events: &[(i64, i64)]) -> Result<Vec<Event>, AllocError>
    ensures { IfOk result (λ v. v.items ≡ map entry_event events.now) }
{
    let mut named = Vec::with_capacity(alloc, events.len())?;
    for (key, number) in events {
        named.push_reserved(entry_event(*key, *number));
    }
    Ok(named)
}

pub(crate) fn side_events(
    alloc: Global,
    events: &[SideOf<PartEvent, PartEvent>],
) -> Result<Vec<Event>, AllocError>
    ensures { IfOk result (λ v. v.items ≡ map side_event events.now) }
{
    let mut named = Vec::with_capacity(alloc, events.len())?;
    for event in events {
        named.push_reserved(side_event(*event));
    }
    Ok(named)
}

pub(crate) fn tally_events(alloc: Global, events: &[(i64, i64)]) -> Result<Vec<Event>, AllocError>
    ensures { IfOk result (λ v. v.items ≡ map tally_event events.now) }
{
    let mut named = Vec::with_capacity(alloc, events.len())?;
    for (key, number) in events {
        named.push_reserved(Event {
            key: *key,
            kind: Kind::Tally,
            number: *number,
        });
    }
    Ok(named)
}

/// What is brought to a set or a counter by its number.
fn number_brought(kind: Kind, brought: Brought<i64>) -> Brought<Event>
    ensures { result ≡ renamed (number_event kind) brought }
{
    match brought {
        Brought::Nothing => Brought::Nothing,
        Brought::One(number) => Brought::One(number_event(kind, number)),
        Brought::Top => Brought::Top,
        Brought::Listed => Brought::Listed,
    }
}

/// Joins a part in place, and says what it brought, as `Lattice::merge_one`.
pub(crate) fn merge_part(
    old: &mut Part,
    alloc: Global,
    put: &Part,
) -> Result<Brought<Event>, AllocError>
    ensures merged { IfOk result (λ b. IsOutcome (joined old.old put.now) (map (part_event (pos 0)) (fresh_of joined ⟦<PartEvent as PartialEq>⟧.eq events_of old.old put.now)) old.old old.new b) }
    ensures refused { IfErr result (λ _. old.new ≡ old.old) }
{
    match old {
        Part::Empty => match put {
            Part::Cell(number) => {
                let event = part_event(0, SideOf::One(*number));
                *old = Part::Cell(*number);
                Ok(Brought::One(event))
            }
            _ => Ok(Brought::Listed),
        },
        Part::Cell(a) => match put {
            Part::Cell(b) => {
                if *a == *b {
                    Ok(Brought::Nothing)
                } else {
                    Ok(Brought::Top)
                }
            }
            _ => Ok(Brought::Listed),
        },
        Part::Set(a) => match put {
            Part::Set(b) => Ok(number_brought(Kind::Set, a.merge_one(alloc, b)?)),
            _ => Ok(Brought::Listed),
        },
        Part::Max(a) => match put {
            Part::Max(b) => Ok(number_brought(Kind::Max, a.merge_one(alloc, b)?)),
            _ => Ok(Brought::Listed),
        },
    }
}

/// What is brought to a map by its key and number.
pub(crate) fn entry_brought(brought: Brought<(i64, i64)>) -> Brought<Event>
    ensures { result ≡ renamed entry_event brought }
{
    match brought {
        Brought::Nothing => Brought::Nothing,
        Brought::One((key, number)) => Brought::One(entry_event(key, number)),
        Brought::Top => Brought::Top,
        Brought::Listed => Brought::Listed,
    }
}

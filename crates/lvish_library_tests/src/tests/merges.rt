//! Merges in place: of sets, of maps, and of the states of a script's variables.

use crate::calls::{events_of, merge_into};
use lvish_compound::{Any, Event, Kind, MapOf, Wrong};
use lvish_lattice::{Flat, GrowSet, Lattice};
use std::alloc::{AllocError, Global};
use std::process::Abort;
use std::test::Fail;

type MergedCells = MapOf<i64, Flat<i64>>;

fn has_events<L: Lattice>(
    alloc: Global,
    state: &L,
    events: &[L::Event],
) -> Result<bool, AllocError> {
    Ok(events_of(alloc, state)?.as_slice() == events)
}

/// Whether the put joins; where memory was refused, the state has the same events as before.
fn joins_at_last<L: Lattice>(
    rt: &impl Abort,
    alloc: Global,
    state: &mut L,
    put: &L,
    before: &[L::Event],
) -> Result<bool, AllocError> {
    match merge_into(alloc, state, put) {
        Ok(joined) => Ok(joined),
        Err(AllocError) => {
            assert!(rt; has_events(alloc, state, before)?);
            merge_into(alloc, state, put)
        }
    }
}

/// Whether the put joins, and the state has these events then.
fn grows<L: Lattice>(
    rt: &impl Abort,
    alloc: Global,
    state: &mut L,
    put: &L,
    before: &[L::Event],
    after: &[L::Event],
) -> Result<bool, AllocError> {
    Ok(joins_at_last(rt, alloc, state, put, before)? && has_events(alloc, state, after)?)
}

/// Whether a set grows by one element, by several at once, and by one more.
fn set_grows(rt: &impl Abort, alloc: Global) -> Result<bool, AllocError> {
    let mut set = GrowSet::of(alloc, &[1])?;
    let first = GrowSet::of(alloc, &[3])?;
    let others = GrowSet::of(alloc, &[0, 2, 4, 5, 7])?;
    let last = GrowSet::of(alloc, &[6])?;
    let both = [1, 3];
    let more = [0, 1, 2, 3, 4, 5, 7];
    let all = [0, 1, 2, 3, 4, 5, 6, 7];
    Ok(
        grows(rt, alloc, &mut set, &first, &[1], &both)?
            && grows(rt, alloc, &mut set, &others, &both, &more)?
            && grows(rt, alloc, &mut set, &last, &more, &all)?,
    )
}

#[test]
fn a_set_grows(rt: HostRuntime) -> Result<(), Fail> {
    assert!(rt; set_grows(&rt, rt.alloc())?);
    Ok(())
}

/// Whether a set of the first list grows by the second one to the third one, all at once.
fn grows_at_once(
    rt: &impl Abort,
    alloc: Global,
    held: &[i64],
    put: &[i64],
    after: &[i64],
) -> Result<bool, AllocError> {
    let mut set = GrowSet::of(alloc, held)?;
    let put = GrowSet::of(alloc, put)?;
    let before = events_of(alloc, &set)?;
    grows(rt, alloc, &mut set, &put, before.as_slice(), after)
}

#[test]
fn a_set_grows_by_elements_behind_its_own(rt: HostRuntime) -> Result<(), Fail> {
    let alloc = rt.alloc();
    assert!(rt; grows_at_once(&rt, alloc, &[], &[1, 2], &[1, 2])?);
    assert!(rt; grows_at_once(&rt, alloc, &[1], &[2, 3], &[1, 2, 3])?);
    assert!(rt; grows_at_once(&rt, alloc, &[1, 2], &[2, 3, 4], &[1, 2, 3, 4])?);
    Ok(())
}

#[test]
fn a_set_grows_by_elements_among_its_own(rt: HostRuntime) -> Result<(), Fail> {
    let alloc = rt.alloc();
    assert!(rt; grows_at_once(&rt, alloc, &[2], &[1, 3], &[1, 2, 3])?);
    assert!(rt; grows_at_once(&rt, alloc, &[1, 3], &[2, 4], &[1, 2, 3, 4])?);
    assert!(rt; grows_at_once(&rt, alloc, &[3, 1], &[2, 4], &[1, 2, 3, 4])?);
    Ok(())
}

#[test]
fn a_set_has_all_that_is_put(rt: HostRuntime) -> Result<(), Fail> {
    let alloc = rt.alloc();
    assert!(rt; grows_at_once(&rt, alloc, &[1, 2, 3], &[1, 3], &[1, 2, 3])?);
    assert!(rt; grows_at_once(&rt, alloc, &[3, 2, 1], &[1, 3], &[1, 2, 3])?);
    Ok(())
}

/// So many numbers from this one on, each greater by the step than the one before it.
fn numbers(alloc: Global, first: i64, step: i64, count: i64) -> Result<Vec<i64>, AllocError> {
    let mut numbers = Vec::new(alloc);
    for k in 0..count {
        numbers.push(first.wrapping_add(step.wrapping_mul(k)))?;
    }
    Ok(numbers)
}

// A tree has few elements in a block, so that growths are refused between those that are put.
#[test]
fn a_tree_grows_by_many_elements(rt: HostRuntime) -> Result<(), Fail> {
    let alloc = rt.alloc();
    let held = numbers(alloc, 58, -2, 30)?;
    let put = numbers(alloc, 1, 2, 30)?;
    let after = numbers(alloc, 0, 1, 60)?;
    assert!(rt;
        grows_at_once(
            &rt,
            alloc,
            held.as_slice(),
            put.as_slice(),
            after.as_slice()
        )?
    );
    Ok(())
}

fn one(alloc: Global, key: i64, value: i64) -> Result<MergedCells, AllocError> {
    MapOf::one(alloc, key, Flat::Value(value))
}

fn two(alloc: Global) -> Result<MergedCells, AllocError> {
    let mut map = one(alloc, 3, 8)?;
    let _joined = merge_into(alloc, &mut map, &one(alloc, 4, 9)?)?;
    Ok(map)
}

/// Whether a map grows by one key, and then by two at once.
fn map_grows(rt: &impl Abort, alloc: Global) -> Result<bool, AllocError> {
    let mut map = one(alloc, 2, 7)?;
    let first = one(alloc, 1, 5)?;
    let others = two(alloc)?;
    let both = [(1, 5), (2, 7)];
    let all = [(1, 5), (2, 7), (3, 8), (4, 9)];
    Ok(
        grows(rt, alloc, &mut map, &first, &[(2, 7)], &both)?
            && grows(rt, alloc, &mut map, &others, &both, &all)?,
    )
}

#[test]
fn a_map_grows(rt: HostRuntime) -> Result<(), Fail> {
    assert!(rt; map_grows(&rt, rt.alloc())?);
    Ok(())
}

fn event(key: i64, kind: Kind, number: i64) -> Event {
    Event { key, kind, number }
}

fn cell_side() -> Result<Any, Wrong> {
    Any::side(1, Any::cell(5))
}

fn set_side(alloc: Global) -> Result<Any, Fail> {
    Ok(Any::side(2, Any::set(alloc, 7)?)?)
}

#[test]
fn a_pair_grows_on_its_other_side(rt: HostRuntime) -> Result<(), Fail> {
    let mut state = cell_side()?;
    let put = set_side(rt.alloc())?;
    let cell = event(1, Kind::Cell, 5);
    let set = event(2, Kind::Set, 7);
    assert!(rt; grows(&rt, rt.alloc(), &mut state, &put, &[cell], &[cell, set])?);
    Ok(())
}

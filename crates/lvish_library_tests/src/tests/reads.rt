//! What the reads of each lattice answer in a state: each call once, through its bound.

use crate::calls::{answer_of, is_checked, spot_of, watched_by};
use lvish_compound::{AtKey, MapOf, Pair, SideOf};
use lvish_lattice::{Flat, FlatRead, GrowSet, Items, Levels, MaxCounter, Members, Reads};
use std::alloc::{AllocError, Global};
use std::fmt::Debug;
use std::test::Fail;

/// What the calls of a read answer: of the read itself, in the state, and of the event.
fn read_text<L: Reads>(
    alloc: Global,
    read: &L::Read,
    state: &L,
    event: &L::Event,
) -> Result<String, AllocError>
where
    L::Answer: Debug,
    L::Spot: Debug,
{
    let (checked, answer) = (is_checked::<L>(read), answer_of(read, state));
    let (waits, spot) = (watched_by::<L>(read), spot_of::<L>(event));
    format!(in alloc; "{checked} {answer:?} waits at {waits:?}, put at {spot:?}")
}

#[test]
fn a_cells_value(rt: HostRuntime) -> Result<(), Fail> {
    let text = read_text(rt.alloc(), &FlatRead::Any, &Flat::Value(4), &4)?;
    assert_eq!(rt;
        text.as_str(),
        "true Some(4) waits at Some(Whole), put at Whole"
    );
    Ok(())
}

#[test]
fn a_sets_element(rt: HostRuntime) -> Result<(), Fail> {
    let alloc = rt.alloc();
    let read = Members::In(Items::new(vec![in alloc; 3, 3]?));
    let text = read_text(alloc, &read, &GrowSet::of(alloc, &[1, 3])?, &1)?;
    assert_eq!(rt; text.as_str(), "true Some(3) waits at Some(3), put at 1");
    Ok(())
}

#[test]
fn a_counters_level(rt: HostRuntime) -> Result<(), Fail> {
    let alloc = rt.alloc();
    let read = Levels::In(Items::new(vec![in alloc; MaxCounter::new(2)?]?));
    let text = read_text(alloc, &read, &MaxCounter::new(1)?, &1)?;
    assert_eq!(rt; text.as_str(), "true None waits at Some(2), put at 1");
    Ok(())
}

#[test]
fn what_a_key_holds(rt: HostRuntime) -> Result<(), Fail> {
    let alloc = rt.alloc();
    let read = AtKey {
        key: 2,
        read: FlatRead::Any,
    };
    let map: MapOf<i64, Flat<i64>> = MapOf::one(alloc, 2, Flat::Value(7))?;
    let text = read_text(alloc, &read, &map, &(2, 7))?;
    assert_eq!(rt;
        text.as_str(),
        "true Some(7) waits at Some((2, Whole)), put at (2, Whole)"
    );
    Ok(())
}

#[test]
fn a_side_of_a_pair(rt: HostRuntime) -> Result<(), Fail> {
    let read = SideOf::Two(FlatRead::Any);
    let pair: Pair<Flat<i64>, Flat<i64>> = Pair::new(Flat::Value(1), Flat::Value(2));
    let text = read_text(rt.alloc(), &read, &pair, &SideOf::One(1))?;
    assert_eq!(rt;
        text.as_str(),
        "true Some(Two(2)) waits at Some(Two(Whole)), put at One(Whole)"
    );
    Ok(())
}

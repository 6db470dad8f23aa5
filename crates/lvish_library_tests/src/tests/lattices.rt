//! What each lattice answers of two of its states: each call once, through its bound. A state is
//! written as its events.

use crate::calls::{
    bottom_of, copy_of, events_of, fresh_of, is_below, join_of, merge_into, merge_one_into,
};
use lvish_compound::{Any, MapOf, Pair, Part, Tally};
use lvish_lattice::{Flat, GrowSet, Lattice, MaxCounter};
use std::alloc::{AllocError, Global};
use std::fmt::{Debug, Write};
use std::test::Fail;

/// Writes the events of a state.
fn write_state<L: Lattice>(text: &mut String, alloc: Global, state: &L) -> Result<(), AllocError>
where
    L::Event: Debug,
{
    let events = events_of(alloc, state)?;
    write!(text, " {:?}", events.as_slice())
}

/// Writes the least state, and a copy of one.
fn write_one<L: Lattice>(text: &mut String, alloc: Global, a: &L) -> Result<(), AllocError>
where
    L::Event: Debug,
{
    write_state(text, alloc, &bottom_of::<L>(alloc))?;
    write_state(text, alloc, &copy_of(alloc, a)?)
}

/// Writes the join of two states, or that it is top, and how they compare.
fn write_join<L: Lattice>(text: &mut String, alloc: Global, a: &L, b: &L) -> Result<(), AllocError>
where
    L::Event: Debug,
{
    match join_of(alloc, a, b)? {
        Some(state) => write_state(text, alloc, &state)?,
        None => text.push_str(" top")?,
    }
    write!(text, " leq {} equal {}", is_below(a, b), *a == *b)
}

/// Writes what is fresh of the second state, and what its merge into the first one answers and leaves.
fn write_merge<L: Lattice>(text: &mut String, alloc: Global, a: &L, b: &L) -> Result<(), AllocError>
where
    L::Event: Debug,
{
    let fresh = fresh_of(alloc, a, b)?;
    let mut state = copy_of(alloc, a)?;
    let joins = merge_into(alloc, &mut state, b)?;
    write!(text, " fresh {:?} merge {joins}", fresh.as_slice())?;
    write_state(text, alloc, &state)
}

/// Writes what a merge of the second state into the first one tells.
fn write_told<L: Lattice>(text: &mut String, alloc: Global, a: &L, b: &L) -> Result<(), AllocError>
where
    L::Event: Debug,
{
    let mut state = copy_of(alloc, a)?;
    let brought = merge_one_into(alloc, &mut state, b)?;
    write!(text, " told {brought:?}")?;
    write_state(text, alloc, &state)
}

/// What the calls of a lattice answer.
fn answers_of<L: Lattice>(alloc: Global, a: &L, b: &L) -> Result<String, AllocError>
where
    L::Event: Debug,
{
    let mut text = String::new(alloc);
    write_one(&mut text, alloc, a)?;
    write_join(&mut text, alloc, a, b)?;
    write_merge(&mut text, alloc, a, b)?;
    write_told(&mut text, alloc, a, b)?;
    Ok(text)
}

#[test]
fn a_cell(rt: HostRuntime) -> Result<(), Fail> {
    let text = answers_of(rt.alloc(), &Flat::Bottom, &Flat::Value(5))?;
    assert_eq!(rt;
        text.as_str(),
        " [] [] [5] leq true equal false fresh [5] merge true [5] told One(5) [5]"
    );
    Ok(())
}

#[test]
fn a_cell_that_has_another_value(rt: HostRuntime) -> Result<(), Fail> {
    let text = answers_of(rt.alloc(), &Flat::Value(1), &Flat::Value(2))?;
    assert_eq!(rt;
        text.as_str(),
        " [] [1] top leq false equal false fresh [] merge false [1] told Top [1]"
    );
    Ok(())
}

#[test]
fn a_set(rt: HostRuntime) -> Result<(), Fail> {
    let alloc = rt.alloc();
    let text = answers_of(alloc, &GrowSet::of(alloc, &[3, 1, 3])?, &GrowSet::one(2))?;
    assert_eq!(rt;
        text.as_str(),
        " [] [1, 3] [1, 2, 3] leq false equal false fresh [2] merge true [1, 2, 3] told One(2) [1, 2, 3]"
    );
    Ok(())
}

#[test]
fn a_counter(rt: HostRuntime) -> Result<(), Fail> {
    let text = answers_of(rt.alloc(), &MaxCounter::new(2)?, &MaxCounter::new(4)?)?;
    assert_eq!(rt;
        text.as_str(),
        " [] [1, 2] [1, 2, 3, 4] leq true equal false fresh [3, 4] merge true [1, 2, 3, 4] told Listed [1, 2]"
    );
    Ok(())
}

/// A map with one key.
fn map(alloc: Global, key: i64, value: i64) -> Result<MapOf<i64, Flat<i64>>, AllocError> {
    MapOf::one(alloc, key, Flat::Value(value))
}

#[test]
fn a_map(rt: HostRuntime) -> Result<(), Fail> {
    let alloc = rt.alloc();
    let text = answers_of(alloc, &map(alloc, 2, 7)?, &map(alloc, 1, 5)?)?;
    assert_eq!(rt;
        text.as_str(),
        " [] [(2, 7)] [(1, 5), (2, 7)] leq false equal false fresh [(1, 5)] merge true [(1, 5), (2, 7)] told Listed [(2, 7)]"
    );
    Ok(())
}

/// A set of one element beside a counter.
fn pair(element: i64, number: i64) -> Result<Pair<GrowSet<i64>, MaxCounter>, Fail> {
    Ok(Pair::new(GrowSet::one(element), MaxCounter::new(number)?))
}

#[test]
fn a_pair(rt: HostRuntime) -> Result<(), Fail> {
    let text = answers_of(rt.alloc(), &pair(3, 1)?, &pair(3, 2)?)?;
    assert_eq!(rt;
        text.as_str(),
        " [] [One(3), Two(1)] [One(3), Two(1), Two(2)] leq true equal false fresh [Two(2)] merge true [One(3), Two(1), Two(2)] told Listed [One(3), Two(1)]"
    );
    Ok(())
}

/// An amount at a key.
fn tally(alloc: Global, key: i64, amount: i64) -> Result<Tally, Fail> {
    Ok(Tally::one(alloc, key, MaxCounter::new(amount)?)?)
}

#[test]
fn a_tally(rt: HostRuntime) -> Result<(), Fail> {
    let alloc = rt.alloc();
    let text = answers_of(alloc, &tally(alloc, 7, 1)?, &tally(alloc, 7, 1)?)?;
    assert_eq!(rt;
        text.as_str(),
        " [] [(7, 1)] [(7, 1)] leq true equal true fresh [] merge true [(7, 1)] told Listed [(7, 1)]"
    );
    Ok(())
}

#[test]
fn a_part(rt: HostRuntime) -> Result<(), Fail> {
    let alloc = rt.alloc();
    let (a, b) = (Part::Empty, Part::of_set(alloc, GrowSet::one(3)));
    let text = answers_of(alloc, &a, &b)?;
    assert_eq!(rt;
        text.as_str(),
        " [] [] [Two(One(3))] leq true equal false fresh [Two(One(3))] merge true [Two(One(3))] told Listed []"
    );
    Ok(())
}

#[test]
fn a_scripts_variable(rt: HostRuntime) -> Result<(), Fail> {
    let alloc = rt.alloc();
    let text = answers_of(alloc, &Any::entry(alloc, 2, 7)?, &Any::entry(alloc, 2, 8)?)?;
    assert_eq!(rt;
        text.as_str(),
        " [] [Event { key: 2, kind: Map, number: 7 }] top leq false equal false fresh [] merge false [Event { key: 2, kind: Map, number: 7 }] told Top [Event { key: 2, kind: Map, number: 7 }]"
    );
    Ok(())
}

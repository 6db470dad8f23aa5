//! What puts brought: to cells, sets, counters, maps, and the states of a script's variables.

use crate::calls::{events_of, merge_one_into};
use lvish_compound::{Any, MapOf, Pair};
use lvish_lattice::{Flat, GrowSet, Lattice, MaxCounter};
use std::alloc::{AllocError, Global};
use std::fmt::Debug;
use std::process::Abort;
use std::test::Fail;

type ToldCells = MapOf<i64, Flat<i64>>;

type ToldPair = Pair<Flat<i64>, MaxCounter>;

/// The put has to bring this, in words; it is made again where memory was refused.
fn tells<L: Lattice>(
    rt: &impl Abort,
    alloc: Global,
    state: &mut L,
    put: &L,
    wanted: &str,
) -> Result<(), Fail>
where
    L::Event: Debug,
{
    let brought = match merge_one_into(alloc, state, put) {
        Ok(brought) => brought,
        Err(AllocError) => merge_one_into(alloc, state, put)?,
    };
    let told = format!(in alloc; "{brought:?}")?;
    assert_eq!(rt; told.as_str(), wanted);
    Ok(())
}

#[test]
fn a_cell_tells_its_value_once(rt: HostRuntime) -> Result<(), Fail> {
    let alloc = rt.alloc();
    let mut cell = Flat::Bottom;
    tells(&rt, alloc, &mut cell, &Flat::Value(5), "One(5)")?;
    tells(&rt, alloc, &mut cell, &Flat::Value(5), "Nothing")?;
    tells(&rt, alloc, &mut cell, &Flat::Bottom, "Nothing")?;
    tells(&rt, alloc, &mut cell, &Flat::Value(6), "Top")?;
    assert_eq!(rt; cell, Flat::Value(5));
    Ok(())
}

#[test]
fn a_set_tells_an_element_once(rt: HostRuntime) -> Result<(), Fail> {
    let alloc = rt.alloc();
    let mut set = GrowSet::new(alloc);
    for number in [1, 5, 3] {
        let put = GrowSet::one(number);
        tells(
            &rt,
            alloc,
            &mut set,
            &put,
            format!(in alloc; "One({number})")?.as_str(),
        )?;
        tells(&rt, alloc, &mut set, &put, "Nothing")?;
    }
    let several = GrowSet::of(alloc, &[6, 7])?;
    tells(&rt, alloc, &mut set, &several, "Listed")?;
    assert_eq!(rt; events_of(alloc, &set)?.as_slice(), [1, 3, 5].as_slice());
    Ok(())
}

#[test]
fn a_counter_tells_the_next_number(rt: HostRuntime) -> Result<(), Fail> {
    let alloc = rt.alloc();
    let mut counter = MaxCounter::new(3)?;
    tells(&rt, alloc, &mut counter, &MaxCounter::new(4)?, "One(4)")?;
    tells(&rt, alloc, &mut counter, &MaxCounter::new(2)?, "Nothing")?;
    tells(&rt, alloc, &mut counter, &MaxCounter::new(9)?, "Listed")?;
    assert_eq!(rt; counter.get(), 4);
    Ok(())
}

fn one(alloc: Global, key: i64, value: i64) -> Result<ToldCells, AllocError> {
    MapOf::one(alloc, key, Flat::Value(value))
}

fn two(alloc: Global) -> Result<ToldCells, AllocError> {
    let mut map = one(alloc, 2, 7)?;
    let _joined = map.merge(alloc, &one(alloc, 4, 9)?)?;
    Ok(map)
}

#[test]
fn a_map_tells_what_its_key_holds(rt: HostRuntime) -> Result<(), Fail> {
    let alloc = rt.alloc();
    let mut map = one(alloc, 2, 7)?;
    tells(&rt, alloc, &mut map, &one(alloc, 2, 7)?, "Nothing")?;
    tells(&rt, alloc, &mut map, &one(alloc, 2, 8)?, "Top")?;
    tells(&rt, alloc, &mut map, &one(alloc, 4, 9)?, "Listed")?;
    assert_eq!(rt; events_of(alloc, &map)?.as_slice(), [(2, 7)].as_slice());
    Ok(())
}

#[test]
fn a_map_of_two_keys_tells_a_further_one(rt: HostRuntime) -> Result<(), Fail> {
    let alloc = rt.alloc();
    let mut map = two(alloc)?;
    tells(&rt, alloc, &mut map, &one(alloc, 3, 8)?, "One((3, 8))")?;
    tells(&rt, alloc, &mut map, &one(alloc, 3, 8)?, "Nothing")?;
    tells(&rt, alloc, &mut map, &one(alloc, 3, 9)?, "Top")?;
    tells(&rt, alloc, &mut map, &two(alloc)?, "Listed")?;
    assert_eq!(rt;
        events_of(alloc, &map)?.as_slice(),
        [(2, 7), (3, 8), (4, 9)].as_slice()
    );
    Ok(())
}

#[test]
fn a_pair_has_to_be_listed(rt: HostRuntime) -> Result<(), Fail> {
    let alloc = rt.alloc();
    let mut pair: ToldPair = Pair::new(Flat::Bottom, MaxCounter::new(1)?);
    let put = Pair::new(Flat::Value(5), MaxCounter::new(1)?);
    tells(&rt, alloc, &mut pair, &put, "Listed")?;
    assert_eq!(rt; events_of(alloc, &pair)?.len(), 1);
    Ok(())
}

#[test]
fn a_scripts_cell_and_set_name_what_they_tell(rt: HostRuntime) -> Result<(), Fail> {
    let alloc = rt.alloc();
    let mut cell = Any::bottom(alloc);
    tells(
        &rt,
        alloc,
        &mut cell,
        &Any::cell(5),
        "One(Event { key: 0, kind: Cell, number: 5 })",
    )?;
    tells(&rt, alloc, &mut cell, &Any::cell(6), "Top")?;
    let mut set = Any::set(alloc, 1)?;
    tells(
        &rt,
        alloc,
        &mut set,
        &Any::set(alloc, 2)?,
        "One(Event { key: 0, kind: Set, number: 2 })",
    )?;
    tells(&rt, alloc, &mut set, &Any::cell(5), "Listed")?;
    Ok(())
}

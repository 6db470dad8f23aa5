//! Calls that are made again where a growth was refused (`rt try --test --fail-alloc N` refuses the
//! N-th): what they were made on is as it was, and then they do what they do without a refusal.

mod lattices;
mod merges;
mod outcomes;
mod puts;
mod reads;

use crate::calls::events_of;
use lvish_lattice::Flat;
use std::alloc::{AllocError, Global};
use std::process::Abort;
use std::test::Fail;

fn events_at_last(
    rt: &impl Abort,
    alloc: Global,
    state: &Flat<i64>,
) -> Result<Vec<i64>, AllocError> {
    match events_of(alloc, state) {
        Ok(events) => Ok(events),
        Err(AllocError) => {
            assert_eq!(rt; *state, Flat::Value(1));
            events_of(alloc, state)
        }
    }
}

#[test]
fn the_events_of_a_cell(rt: HostRuntime) -> Result<(), Fail> {
    let events = events_at_last(&rt, rt.alloc(), &Flat::Value(1))?;
    assert_eq!(rt; events.as_slice(), [1].as_slice());
    Ok(())
}

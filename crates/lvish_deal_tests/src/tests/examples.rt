//! Worked examples, on one thread.
ghost use Rattle.std.specs.Prelude.{◌≡◌, ◌<◌, ◌≤◌, length};
ghost use Rattle.lvish_deal.specs.Place.{IsWholeDeal};

use super::seats::{Seats, closed, dealt, pop, push, steal};
use lvish_deal::Steal;
use std::alloc::{AllocError, Global};
use std::test::Fail;

/// A call of a seat, and what it answers.
#[derive(Clone, Copy)]
enum SeatCall {
    /// Which seat it is, of how many.
    Seat(usize, usize),
    /// It pushes the item, which isn't given back.
    Push(usize, u32),
    /// It pushes all numbers below this one.
    PushBelow(usize, u32),
    Pop(usize, Option<u32>),
    /// It steals from the second.
    Steal(usize, usize, Steal<u32>),
}

fn push_below(seats: &mut Seats, at: usize, n: u32) -> bool
    requires { (at < length seats.old.items) × IsWholeDeal seats.old.items }
    ensures { IsWholeDeal seats.new.items × (length seats.new.items ≡ length seats.old.items) }
{
    let mut all = true;
    for item in 0..n {
        all = push(seats, at, item).is_ok() && all;
    }
    all
}

/// Whether the call has the expected answer.
fn is_answered(seats: &mut Seats, call: &SeatCall) -> bool
    requires { IsWholeDeal seats.old.items }
    ensures { IsWholeDeal seats.new.items × (length seats.new.items ≡ length seats.old.items) }
{
    let len = seats.len();
    match call {
        SeatCall::Seat(at, of) if *at < len => seats[*at].number() == *at
            && seats[*at].seats() == *of,
        SeatCall::Push(at, item) if *at < len => push(seats, *at, *item).is_ok(),
        SeatCall::PushBelow(at, n) if *at < len => push_below(seats, *at, *n),
        SeatCall::Pop(at, answer) if *at < len => pop(seats, *at) == *answer,
        SeatCall::Steal(at, from, answer) if *at < len && *from < len && *from != *at => {
            steal(seats, *at, *from) == *answer
        }
        _ => false,
    }
}

fn are_answered(seats: &mut Seats, calls: &[SeatCall]) -> bool
    requires { IsWholeDeal seats.old.items }
    ensures { IsWholeDeal seats.new.items }
{
    for call in calls {
        if !is_answered(seats, call) {
            return false;
        }
    }
    true
}

/// Whether this is left in the deques.
fn is_left(alloc: Global, seats: Seats, deques: &[&[u32]]) -> Result<bool, AllocError>
    requires { IsWholeDeal seats.items }
{
    let left = closed(alloc, seats)?;
    Ok(left.len() == deques.len() && left.iter().zip(deques).all(|(a, b)| a.as_slice() == *b))
}

/// Whether the calls of `n` seats have the expected answers, and this is left.
fn holds(alloc: Global, n: usize, calls: &[SeatCall], left: &[&[u32]]) -> Result<bool, AllocError>
    requires { (0 < n) × (n ≤ 8) }
{
    let mut seats = dealt(alloc, n)?;
    Ok(are_answered(&mut seats, calls) && is_left(alloc, seats, left)?)
}

#[test]
fn a_pop_and_a_steal_share_what_was_pushed(rt: HostRuntime) -> Result<(), Fail> {
    let calls = [
        SeatCall::Push(0, 1),
        SeatCall::Push(0, 2),
        SeatCall::Push(0, 3),
        SeatCall::Pop(0, Some(1)),
        SeatCall::Steal(1, 0, Steal::Taken(2)),
        SeatCall::Pop(1, None),
    ];
    assert!(rt; holds(rt.alloc(), 2, &calls, &[&[3], &[]])?);
    Ok(())
}

#[test]
fn a_lone_seat_pops_what_it_pushed(rt: HostRuntime) -> Result<(), Fail> {
    let calls = [
        SeatCall::Seat(0, 1),
        SeatCall::Pop(0, None),
        SeatCall::Push(0, 1),
        SeatCall::Push(0, 2),
        SeatCall::Pop(0, Some(1)),
        SeatCall::Pop(0, Some(2)),
        SeatCall::Pop(0, None),
        SeatCall::Push(0, 3),
    ];
    assert!(rt; holds(rt.alloc(), 1, &calls, &[&[3]])?);
    Ok(())
}

#[test]
fn a_thief_empties_one_deque_and_turns_to_another(rt: HostRuntime) -> Result<(), Fail> {
    let calls = [
        SeatCall::Seat(1, 3),
        SeatCall::Push(0, 1),
        SeatCall::Push(0, 2),
        SeatCall::Push(2, 3),
        SeatCall::Steal(1, 2, Steal::Taken(3)),
        SeatCall::Steal(1, 2, Steal::Nothing),
        SeatCall::Steal(1, 0, Steal::Taken(1)),
    ];
    assert!(rt; holds(rt.alloc(), 3, &calls, &[&[2], &[], &[]])?);
    Ok(())
}

/// The numbers from 2 to 39.
fn from_two() -> [u32; 38] {
    let mut numbers = [0; 38];
    for (place, number) in numbers.iter_mut().enumerate() {
        *number = place as u32 + 2;
    }
    numbers
}

// More items than the first slots: the deque grows under a pop and a steal, and keeps their order.
#[test]
fn a_deque_that_grew_gives_its_items_in_their_order(rt: HostRuntime) -> Result<(), Fail> {
    let calls = [
        SeatCall::PushBelow(0, 40),
        SeatCall::Pop(0, Some(0)),
        SeatCall::Steal(1, 0, Steal::Taken(1)),
    ];
    assert!(rt; holds(rt.alloc(), 2, &calls, &[&from_two(), &[]])?);
    Ok(())
}

// Closing a deal.
ghost use Rattle.std.specs.Prelude.{◌≡◌, ℕ, [], ◌∷◌, ◌+◌, ◌-◌, ◌<◌, ◌≤◌, length, map, All, IfOk, IfErr, vec_len, vec_capacity, slice_index_or};
ghost use Rattle.crossbeam_deque.specs.Handles.{worker_deque, worker_view, worker_port, worker_flavor};
ghost use Rattle.lvish_deal.specs.Rule.{Told, rest_of};
ghost use Rattle.lvish_deal.specs.Closes.{IsWhole, IsOpen, IsJoined, HasRoomForRest, AreRooms, AreParts, column};
ghost use Rattle.lvish_deal.specs.Place.{IsWholeDeal, AreSettled};
ghost use Rattle.lvish_deal.specs.Reaches.{reach_deque, reach_view};
ghost use Rattle.lvish_deal.specs.Deals.{deques};

use crate::reach::{Own, Reach};
use crate::rule::{Cut, OwnerPop, WholeLesson};
use crate::seat::Seat;
use std::alloc::{AllocError, Global};

// Joins one thief's pass into the owner's.
fn join_one<T: Drop>(own: &mut Own<T>, reach: Reach<T>)
    requires { IsOpen own.old × (reach_deque reach ≡ worker_deque own.old) }
    ensures { IsJoined (reach_view reach ∷ []) own.old own.new }
{
    let Reach { stealer: _, pass } = reach;
    own.absorb::<Cut>(pass);
}

// Joins the passes of one seat into the owners'.
fn join_row<T: Drop>(owners: &mut Vec<Own<T>>, mut reaches: Vec<Reach<T>>)
    requires open { All IsOpen owners.old.items }
    requires row { map reach_deque reaches.items ≡ deques owners.old.items }
    ensures deques { deques owners.new.items ≡ deques owners.old.items }
    ensures joined { (k : ℕ) (d : _) → k < length owners.old.items → IsJoined (column k (reaches ∷ [])) (slice_index_or owners.old.items k d) (slice_index_or owners.new.items k d) }
{
    while let Some(reach) = reaches.pop() {
        let own = &mut owners[reaches.len()];
        join_one(own, reach);
    }
}

// Joins the passes of all seats into the owners'.
fn join_all<T: Drop>(owners: &mut Vec<Own<T>>, mut rows: Vec<Vec<Reach<T>>>)
    requires open { All IsOpen owners.old.items }
    requires rows { All (λ row. map reach_deque row.items ≡ deques owners.old.items) rows.items }
    ensures joined { (k : ℕ) (d : _) → k < length owners.old.items → IsJoined (column k rows.items) (slice_index_or owners.old.items k d) (slice_index_or owners.new.items k d) }
    ensures long { length owners.new.items ≡ length owners.old.items }
{
    while let Some(row) = rows.pop() {
        join_row(owners, row);
    }
}

// Takes all that is left of the deque.
fn drain<T>(own: &mut Own<T>, left: &mut Vec<T>)
    requires whole { IsWhole own.old }
    requires room { (left.old.items ≡ []) × (length (rest_of (worker_view own.old)) ≤ vec_capacity left.old) }
    ensures { Told (worker_view own.old) left.new.items }
{
    let _ = own.len_as::<WholeLesson>();
    while let Some(item) = own.pop_as::<OwnerPop>() {
        left.push_reserved(item);
    }
}

// Takes all that is left of each deque.
fn drain_all<T>(owners: &mut Vec<Own<T>>, left: &mut Vec<Vec<T>>)
    requires whole { All IsWhole owners.old.items }
    requires room { HasRoomForRest owners.old.items left.old.items }
    ensures { (length left.new.items ≡ length left.old.items) × ((k : ℕ) (d e : _) → k < length owners.old.items → Told (worker_view (slice_index_or owners.old.items k d)) (slice_index_or left.new.items k e).items) }
{
    for k in 0..owners.len() {
        drain(&mut owners[k], &mut left[k]);
    }
}

// Room for what each deque may hold.
fn rooms<T: Drop>(alloc: Global, seats: &Vec<Seat<T>>) -> Result<Vec<Vec<T>>, AllocError>
    ensures { IfOk result (λ rooms. AreRooms seats.now.items rooms.items) }
{
    let mut rooms = Vec::with_capacity(alloc, seats.len())?;
    for k in 0..seats.len() {
        rooms.push(Vec::with_capacity(alloc, seats[k].room())?)?;
    }
    Ok(rooms)
}

// Takes the seats apart.
fn part<T: Drop>(mut seats: Vec<Seat<T>>, owners: &mut Vec<Own<T>>, rows: &mut Vec<Vec<Reach<T>>>)
    requires room { (owners.old.items ≡ []) × (rows.old.items ≡ []) × (length seats.items ≤ vec_capacity owners.old) × (length seats.items ≤ vec_capacity rows.old) }
    ensures { AreParts seats.items owners.new.items rows.new.items }
{
    while let Some(seat) = seats.pop() {
        let (own, reaches) = seat.part();
        let _ = owners.insert(0, own);
        let _ = rows.insert(0, reaches);
    }
}

/// Takes back all seats of a deal, in the order of their numbers, and gives what is left in each of their deques, front
/// first. An `Err` gives the seats back as they were: memory ran out.
pub fn close<T: Drop>(alloc: Global, seats: Vec<Seat<T>>) -> Result<Vec<Vec<T>>, Vec<Seat<T>>>
    requires { IsWholeDeal seats.items }
    ensures left { IfOk result (λ left. AreSettled seats.items left.items) }
    ensures back { IfErr result (λ back. back ≡ seats) }
{
    let Ok(mut left) = rooms(alloc, &seats) else {
        return Err(seats);
    };
    let Ok(mut owners) = Vec::with_capacity(alloc, seats.len()) else {
        return Err(seats);
    };
    let Ok(mut rows) = Vec::with_capacity(alloc, seats.len()) else {
        return Err(seats);
    };
    part(seats, &mut owners, &mut rows);
    join_all(&mut owners, rows);
    drain_all(&mut owners, &mut left);
    Ok(left)
}

//! Calls of the seats of a deal. One that was refused for want of memory is made again, so that each
//! example gives its answers whichever one growth is refused.
ghost use Rattle.std.specs.Prelude.{◌≡◌, ◌≢◌, ◌<◌, ◌≤◌, length, IfOk};
ghost use Rattle.lvish_deal.specs.Place.{IsWholeDeal, IsSameSeat};

use lvish_deal::{Seat, Steal, close, deal};
use std::alloc::{AllocError, Global};

pub type Seats = Vec<Seat<u32>>;

pub fn dealt(alloc: Global, n: usize) -> Result<Seats, AllocError>
    requires { (0 < n) × (n ≤ 8) }
    ensures { IfOk result (λ seats. IsWholeDeal seats.items × (length seats.items ≡ n)) }
{
    match deal(alloc, n) {
        Ok(seats) => Ok(seats),
        Err(_) => deal(alloc, n),
    }
}

pub fn closed(alloc: Global, seats: Seats) -> Result<Vec<Vec<u32>>, AllocError>
    requires { IsWholeDeal seats.items }
{
    match close(alloc, seats) {
        Ok(left) => Ok(left),
        Err(seats) => closed_again(alloc, seats),
    }
}

fn closed_again(alloc: Global, seats: Seats) -> Result<Vec<Vec<u32>>, AllocError>
    requires { IsWholeDeal seats.items }
{
    match close(alloc, seats) {
        Ok(left) => Ok(left),
        Err(_) => Err(AllocError),
    }
}

fn push_here(seat: &mut Seat<u32>, item: u32) -> Result<(), u32>
    ensures { IsSameSeat seat.old seat.new }
{
    match seat.push(item) {
        Ok(()) => Ok(()),
        Err(back) => seat.push(back),
    }
}

pub fn push(seats: &mut Seats, at: usize, item: u32) -> Result<(), u32>
    requires { (at < length seats.old.items) × IsWholeDeal seats.old.items }
    ensures { IsWholeDeal seats.new.items × (length seats.new.items ≡ length seats.old.items) }
{
    push_here(&mut seats[at], item)
}

pub fn pop(seats: &mut Seats, at: usize) -> Option<u32>
    requires { (at < length seats.old.items) × IsWholeDeal seats.old.items }
    ensures { IsWholeDeal seats.new.items × (length seats.new.items ≡ length seats.old.items) }
{
    seats[at].pop()
}

pub fn steal(seats: &mut Seats, at: usize, from: usize) -> Steal<u32>
    requires { (at < length seats.old.items) × (from < length seats.old.items) × (from ≢ at) × IsWholeDeal seats.old.items }
    ensures { IsWholeDeal seats.new.items × (length seats.new.items ≡ length seats.old.items) }
{
    seats[at].steal(from)
}

// A seat, and its moves.
ghost use Rattle.std.specs.Prelude.{◌≡◌, ◌≢◌, [], ◌∷◌, ◌++◌, length, map, ◌+◌, ◌-◌, ◌<◌, ◌≤◌, OnOk, OnErr, IfErr, IfSome, IfNone, slice_set, slice_index_or};
ghost use Rattle.crossbeam_deque.specs.Handles.{worker_deque, worker_view, worker_port, worker_flavor};
ghost use Rattle.lvish_deal.specs.Reaches.{reach_deque, reach_got, HasParts};
ghost use Rattle.lvish_deal.specs.Order.{IsSubsequence, IsFront};
ghost use Rattle.lvish_deal.specs.Deals.{IsNew};
ghost use Rattle.lvish_deal.specs.Closes.{IsPartOfSeat};
ghost use Rattle.lvish_deal.specs.Place.{taken_from, IsSameSeat, IsAlone};
ghost use Rattle.lvish_deal.specs.Answer.{IfTaken, IfNotTaken};

use crate::reach::{Own, Reach};
use crate::rule::{Popped, Sent};
use crate::steal::Steal;
use std::marker::Model;

/// One of the seats of a deal. It pushes to its own deque and pops there, and steals from the deques of the others.
///
/// Contracts see it as a `SeatPlace`: the deal, the seat's number, and what it pushed, popped and stole, in the order of its
/// calls. It may go to another thread where its items may.
#[derive(Drop)]
pub struct Seat<T> {
    number: usize,
    own: Own<T>,
    reaches: Vec<Reach<T>>,
    held: u64,
}

impl<T> Model for Seat<T> {
    ghost use Rattle.lvish_deal.specs.Place.{SeatPlace};

    ghost Value = { SeatPlace T };

    ghost use Rattle.lvish_deal.specs.Seats.{seat_place, IsSeated};

    ghost view = { seat_place };

    ghost invariant = { IsSeated };
}

impl<T> Seat<T> {
    // A seat that has pushed and taken nothing.
    pub(crate) fn new(number: usize, own: Own<T>, reaches: Vec<Reach<T>>) -> Seat<T>
        requires new { IsNew (10 - length reaches.items) own }
        requires parts { HasParts number reaches.items }
        requires few { length reaches.items ≤ 8 }
        requires among { number < length reaches.items }
        requires own { (d : _) → reach_deque (slice_index_or reaches.items number d) ≡ worker_deque own }
        ensures { result ≡ record { deal = map reach_deque reaches.items; number = number; pushed = []; popped = []; stolen = map reach_got reaches.items } }
    {
        Seat {
            number,
            own,
            reaches,
            held: 0,
        }
    }

    // How many items its deque holds at most.
    pub(crate) fn room(&self) -> usize
        ensures { result + length self.now.popped ≡ length self.now.pushed }
    {
        self.held as usize
    }

    pub(crate) fn part(self) -> (Own<T>, Vec<Reach<T>>)
        ensures { IsPartOfSeat self result.0 result.1 }
    {
        let Seat {
            number: _,
            own,
            reaches,
            held: _,
        } = self;
        (own, reaches)
    }

    /// Its number among the seats of its deal, from 0.
    pub fn number(&self) -> usize
        ensures number { result ≡ self.now.number }
        ensures among { result < length self.now.deal }
    {
        self.number
    }

    /// How many seats its deal has, 1 to 8.
    pub fn seats(&self) -> usize
        ensures seats { result ≡ length self.now.deal }
        ensures few { result ≤ 8 }
    {
        self.reaches.len()
    }

    /// Adds an item at the back of its own deque. An `Err` gives it back: the deque could not grow. The first 16 pushes of
    /// a seat always succeed.
    pub fn push(&mut self, item: T) -> Result<(), T>
        ensures ok { OnOk result (self.new ≡ record self.old { pushed = self.old.pushed ++ item ∷ [] }) }
        ensures err { IfErr result (λ back. (back ≡ item) × (self.new ≡ self.old)) }
        ensures full { OnErr result (16 ≤ length self.old.pushed) }
        ensures same { IsSameSeat self.old self.new }
    {
        if self.held == u64::MAX {
            return Err(item);
        }
        self.own.push_as::<Sent>(item)?;
        self.held += 1;
        Ok(())
    }

    /// Takes the item at the front of its own deque. `None` only if the deque was empty at one moment of the call: that is
    /// proved of a seat that is alone in its deal, and only tested where others steal, who may have taken any items.
    pub fn pop(&mut self) -> Option<T>
        ensures some { IfSome result (λ x. self.new ≡ record self.old { popped = self.old.popped ++ x ∷ [] }) }
        ensures none { IfNone result (self.new ≡ self.old) }
        ensures picked { IfSome result (λ _. IsSubsequence self.new.popped self.new.pushed) }
        ensures front { IfSome result (λ _. IsAlone self.old → IsFront self.new.popped self.new.pushed) }
        ensures all { IfNone result (IsAlone self.old → self.old.popped ≡ self.old.pushed) }
        ensures same { IsSameSeat self.old self.new }
    {
        let item = self.own.pop_as::<Popped>()?;
        self.held -= 1;
        Some(item)
    }

    /// Takes the item at the front of the deque of the seat `from`. `Nothing` only if the deque was empty at one moment of
    /// the call: that is only tested, since a thief knows nothing of what the others pushed and took.
    pub fn steal(&mut self, from: usize) -> Steal<T>
        requires among { from < length self.old.deal }
        requires other { from ≢ self.old.number }
        ensures taken { IfTaken result (λ x. self.new ≡ record self.old { stolen = slice_set self.old.stolen from (taken_from self.old from ++ x ∷ []) }) }
        ensures none { IfNotTaken result (self.new ≡ self.old) }
        ensures same { IsSameSeat self.old self.new }
    {
        self.reaches[from].take()
    }
}

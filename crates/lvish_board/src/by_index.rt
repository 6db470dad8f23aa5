//! The parked tasks, by index.

ghost use Rattle.std.specs.Prelude.{◌≡◌, ◌+◌, ◌<◌, ◌≤◌, ◌↔◌, ◌++◌, ◌∷◌, [], ℕ, Some, IfOk, IsSome, OnOk, OnErr, IsTrue, MatchOption, length, slice_get, vec_len, vec_capacity};
ghost use Rattle.std.specs.List.{swap_remove};
ghost use Rattle.lvish_calculus.specs.declared.label.Label.TheVariants.{Act};
ghost use Rattle.lvish_calculus.specs.Handing.{IsAmong, NoRepeats};
ghost use Rattle.lvish_board.specs.Stand.{TaskStand};
ghost use Rattle.lvish_board.specs.Seated.{AreWithin, HasIndexAmong, indices_of, stands_of};
ghost use Rattle.lvish_board.specs.Shelved.{shelf};
ghost use Rattle.lvish_board.specs.Board.{tasks_of};
ghost use Rattle.lvish_board.specs.Waking.{Wakes};

use crate::asked::Asked;
use crate::board_brand::BoardBrand;
use lvish_calculus::Program;
use lvish_core::{Core, CoreMeaning};
use smallvec::SmallVec;
use std::alloc::{AllocError, Global};
use std::collections::HashMap;
use std::hash::Hash;
use std::marker::Model;

/// The parked tasks, each with its index, in any order.
pub(crate) struct ByIndex<P: Program, B: BoardBrand<P>> {
    asked: Vec<(usize, Asked<P, B>)>,
    // where a task stands among them, at its index
    seats: Vec<usize>,
}

// Written out, so that it is proved once, and not at each exit of a function that owns one.
impl<P: Program, B: BoardBrand<P>> Drop for ByIndex<P, B> {
    fn drop(self) {
        let ByIndex { asked: _, seats: _ } = self;
    }
}

impl<P: Program, B: BoardBrand<P>> Model for ByIndex<P, B> {
    ghost use Rattle.std.specs.Prelude.{List, ℕ};
    ghost use Rattle.lvish_board.specs.Stand.{TaskStand};
    ghost use Rattle.lvish_board.specs.Seated.{AreSeated};

    ghost Value = { List (ℕ × TaskStand P.Lat.Event P.Local) };

    ghost view = { λ b. b.asked.items };

    ghost invariant = { λ b. AreSeated b.seats.items b.asked.items };
}

impl<P: Program, B: BoardBrand<P>> ByIndex<P, B> {
    /// No task.
    pub(crate) fn new(alloc: Global) -> ByIndex<P, B>
        ensures { result ≡ [] }
    {
        ByIndex {
            asked: Vec::new(alloc),
            seats: Vec::new(alloc),
        }
    }

    /// How many tasks are parked.
    pub(crate) fn len(&self) -> usize
        ensures { result ≡ length self.now }
    {
        self.asked.len()
    }

    /// Where the task of this index stands, if it is parked.
    #[inline(always)]
    fn find(&self, index: usize) -> Option<usize>
        ensures { MatchOption result (IsAmong index (indices_of self.now) → ⊥) (λ k. (p : TaskStand P.Lat.Event P.Local) × (slice_get self.now k ≡ Some (index, p))) }
    {
        let Some(seat) = self.seats.get(index) else {
            return None;
        };
        let Some(asked) = self.asked.get(*seat) else {
            return None;
        };
        if asked.0 == index { Some(*seat) } else { None }
    }

    /// Whether the task of this index is parked.
    pub(crate) fn has(&self, index: usize) -> bool
        ensures { IsTrue result ↔ IsAmong index (indices_of self.now) }
    {
        self.find(index).is_some()
    }

    /// Parks a task that isn't there, out of its slot.
    ///
    /// # Errors
    ///
    /// Where there is no room for it; nothing has changed.
    #[inline(always)]
    pub(crate) fn insert(
        &mut self,
        index: usize,
        slot: &mut Option<Asked<P, B>>,
    ) -> Result<(), AllocError>
        requires there { IsSome slot.old }
        requires absent { IsAmong index (indices_of self.old) → ⊥ }
        ensures ok { (a : TaskStand P.Lat.Event P.Local) → slot.old ≡ Some a → IfOk result (λ _. self.new ≡ self.old ++ (index, a) ∷ []) }
        ensures err { OnErr result ((slot.new ≡ slot.old) × (self.new ≡ self.old)) }
    {
        reserve_at(&mut self.asked, &mut self.seats, index)?;
        let Some(asked) = slot.take() else {
            unreachable!()
        };
        self.seats[index] = self.asked.len();
        self.asked.push_reserved((index, asked));
        Ok(())
    }

    /// Takes the task of this index out if it is parked and can go on. Answers false where it is parked
    /// and stays blocked.
    pub(crate) fn wake(
        &mut self,
        core: &Core<'_, P>,
        index: usize,
        woken: &mut Vec<Asked<P, B>>,
    ) -> bool
        requires program { core.now.program ≡ B.program }
        requires current { (p : TaskStand P.Lat.Event P.Local) → IsAmong p (stands_of self.old) → ⟦<P as CoreMeaning>⟧.local_in core.now p.task ≡ Some p.from }
        requires once { NoRepeats (tasks_of (stands_of self.old)) }
        requires room { vec_len woken.old + length self.old ≤ vec_capacity woken.old }
        ensures wakes { Wakes (λ p. ⟦<P as CoreMeaning>⟧.can_take core.now (Act p.task)) (λ p. IsAmong (index, p) self.old) (stands_of self.old) (stands_of self.new) woken.old.items woken.new.items }
        ensures gone { IsTrue result → IsAmong index (indices_of self.new) → ⊥ }
        ensures once { NoRepeats (tasks_of (stands_of self.new)) }
        ensures within { AreWithin self.new self.old }
        ensures capacity { vec_capacity woken.new ≡ vec_capacity woken.old }
    {
        let Some(seat) = self.find(index) else {
            return true;
        };
        let asked = &self.asked[seat].1;
        if !core.can_act(asked.task(), asked.request()) {
            return false;
        }
        woken.push_reserved(self.take(seat));
        true
    }

    /// Takes out the task that stands here, and the last one stands in its place.
    #[inline(always)]
    fn take(&mut self, seat: usize) -> Asked<P, B>
        requires { seat < length self.old }
        ensures { (i : ℕ) × (slice_get self.old seat ≡ Some (i, result)) × (self.new ≡ swap_remove self.old seat (i, result)) }
    {
        let (_index, asked) = self.asked.swap_remove(seat);
        if let Some(moved) = self.asked.get(seat) {
            self.seats[moved.0] = seat;
        }
        asked
    }

    /// Takes out those of the tasks of these indices that can go on, and leaves the indices of the
    /// others.
    pub(crate) fn wake_each(
        &mut self,
        core: &Core<'_, P>,
        indices: &mut SmallVec<usize, 2>,
        woken: &mut Vec<Asked<P, B>>,
    )
        requires program { core.now.program ≡ B.program }
        requires current { (p : TaskStand P.Lat.Event P.Local) → IsAmong p (stands_of self.old) → ⟦<P as CoreMeaning>⟧.local_in core.now p.task ≡ Some p.from }
        requires once { NoRepeats (tasks_of (stands_of self.old)) }
        requires room { vec_len woken.old + length self.old ≤ vec_capacity woken.old }
        ensures wakes { Wakes (λ p. ⟦<P as CoreMeaning>⟧.can_take core.now (Act p.task)) (HasIndexAmong indices.old.items self.old) (stands_of self.old) (stands_of self.new) woken.old.items woken.new.items }
        ensures left { (i : ℕ) → IsAmong i (indices_of self.new) → IsAmong i indices.old.items → IsAmong i indices.new.items }
        ensures once { NoRepeats (tasks_of (stands_of self.new)) }
        ensures within { AreWithin self.new self.old }
        ensures capacity { vec_capacity woken.new ≡ vec_capacity woken.old }
    {
        let mut next = indices.len();
        while next > 0 {
            next -= 1;
            if self.wake(core, indices.as_slice()[next], woken) {
                indices.swap_remove(next);
            }
        }
    }

    /// Takes out those of the tasks whose indices lie under this key that can go on, and leaves the indices of
    /// the others.
    #[inline(always)]
    pub(crate) fn wake_under<K: Eq + Hash + Drop>(
        &mut self,
        core: &Core<'_, P>,
        lists: &mut HashMap<K, SmallVec<usize, 2>>,
        key: &K,
        woken: &mut Vec<Asked<P, B>>,
    )
        requires program { core.now.program ≡ B.program }
        requires current { (p : TaskStand P.Lat.Event P.Local) → IsAmong p (stands_of self.old) → ⟦<P as CoreMeaning>⟧.local_in core.now p.task ≡ Some p.from }
        requires once { NoRepeats (tasks_of (stands_of self.old)) }
        requires room { vec_len woken.old + length self.old ≤ vec_capacity woken.old }
        ensures wakes { Wakes (λ p. ⟦<P as CoreMeaning>⟧.can_take core.now (Act p.task)) (HasIndexAmong (shelf K.eq lists.old key.now) self.old) (stands_of self.old) (stands_of self.new) woken.old.items woken.new.items }
        ensures left { (q : K) (i : ℕ) → IsAmong i (indices_of self.new) → IsAmong i (shelf K.eq lists.old q) → IsAmong i (shelf K.eq lists.new q) }
        ensures once { NoRepeats (tasks_of (stands_of self.new)) }
        ensures within { AreWithin self.new self.old }
        ensures capacity { vec_capacity woken.new ≡ vec_capacity woken.old }
    {
        if let Some(indices) = lists.get_mut(key) {
            self.wake_each(core, indices, woken);
        }
    }
}

/// Makes room for one more item, and makes the list of seats long enough for this index, whose items
/// stay.
///
/// # Errors
///
/// Where there is no room for it.
fn reserve_at<T>(items: &mut Vec<T>, seats: &mut Vec<usize>, index: usize) -> Result<(), AllocError>
    ensures items { items.new.items ≡ items.old.items }
    ensures room { OnOk result (vec_len items.new < vec_capacity items.new) }
    ensures kept { (i k : ℕ) → slice_get seats.old.items i ≡ Some k → slice_get seats.new.items i ≡ Some k }
    ensures there { OnOk result (index < length seats.new.items) }
{
    items.reserve(1)?;
    reach(seats, index)
}

/// Makes the list long enough for this index, and keeps what stands in it.
///
/// # Errors
///
/// Where there is no room for it.
fn reach(seats: &mut Vec<usize>, index: usize) -> Result<(), AllocError>
    ensures kept { (i k : ℕ) → slice_get seats.old.items i ≡ Some k → slice_get seats.new.items i ≡ Some k }
    ensures there { OnOk result (index < length seats.new.items) }
{
    if index < seats.len() {
        return Ok(());
    }
    match index.checked_add(1) {
        Some(count) => seats.resize(count, 0),
        None => Err(AllocError),
    }
}

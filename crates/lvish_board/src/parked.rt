//! The parked tasks.

ghost use Rattle.std.specs.Prelude.{◌≡◌, ◌+◌, ◌≤◌, ◌⊎◌, ◌↔◌, [], ℕ, List, None, Some, Option, IfOk, IsSome, IsFalse, OnOk, OnErr, length, vec_len, vec_capacity};
ghost use Rattle.std.specs.List.Sorted.{IsPermutation, IsSortedBy, IsStrictlySortedBy};
ghost use Rattle.std.specs.Ordering.{is_lt};
ghost use Rattle.lvish_names.specs.NameOrder.{name_cmp};
ghost use Rattle.lvish_calculus.specs.declared.label.Label.TheVariants.{Act};
ghost use Rattle.lvish_calculus.specs.Handing.{IsAmong, NoRepeats};
ghost use Rattle.lvish_board.specs.Stand.{TaskStand};
ghost use Rattle.lvish_board.specs.Seated.{AreWithin, stands_of};
ghost use Rattle.lvish_board.specs.Board.{tasks_of};
ghost use Rattle.lvish_board.specs.Waking.{Wakes};
ghost use Rattle.lvish_board.specs.Shelved.{IsOnItsList, WaitsAt};
ghost use Rattle.lvish_core.specs.declared.touched.Touched.TheVariants.{Put, Handed};
ghost use Rattle.lvish_board.specs.Woken.{CanBlock, IsParkedBeside, IsWoken, MayWake};

use crate::asked::Asked;
use crate::board_brand::BoardBrand;
use crate::by_index::ByIndex;
use crate::shelves::{BySpot, ByVariable};
use lvish_calculus::{Program, Request};
use lvish_core::{Core, CoreMeaning, Touched};
use lvish_lattice::{Lattice, Reads};
use lvish_names::TaskName;
use lvish_variable::Entry;
use std::alloc::{AllocError, Global};
use std::cmp::Ordering;
use std::marker::Model;

/// The parked tasks, each once, and on one list each.
pub(crate) struct Parked<P: Program, B: BoardBrand<P>> {
    tasks: ByIndex<P, B>,
    /// The gets that wait at no spot, by the variable.
    whole: ByVariable,
    /// The other gets, by the variable and the spot at which they wait.
    spots: BySpot<<P::Lat as Reads>::Spot>,
    /// The freezes, by the variable.
    freezes: ByVariable,
}

// Written out, so that it is proved once, and not at each exit of a function that owns one.
impl<P: Program, B: BoardBrand<P>> Drop for Parked<P, B> {
    fn drop(self) {
        let Parked {
            tasks: _,
            whole: _,
            spots: _,
            freezes: _,
        } = self;
    }
}

impl<P: Program, B: BoardBrand<P>> Model for Parked<P, B> {
    ghost use Rattle.std.specs.Prelude.{List, ℕ};
    ghost use Rattle.lvish_calculus.specs.Handing.{IsAmong};
    ghost use Rattle.lvish_board.specs.Stand.{TaskStand};
    ghost use Rattle.lvish_board.specs.Shelved.{IsOnItsList};

    ghost Value = { List (ℕ × TaskStand P.Lat.Event P.Local) };

    ghost view = { λ p. p.tasks };

    ghost invariant = { λ p. (e : ℕ × TaskStand P.Lat.Event P.Local) → IsAmong e p.tasks → IsOnItsList P.Lat.Spot.eq P.Lat.watched p.whole.lists.items p.spots.tables.items p.freezes.lists.items ((P.functions B.program).request e.1.from) e.0 };
}

impl<P: Program, B: BoardBrand<P>> Parked<P, B> {
    /// No task.
    pub(crate) fn new(alloc: Global) -> Parked<P, B>
        ensures { result ≡ [] }
    {
        Parked {
            tasks: ByIndex::new(alloc),
            whole: ByVariable::new(alloc),
            spots: BySpot::new(alloc),
            freezes: ByVariable::new(alloc),
        }
    }

    /// How many tasks are parked.
    pub(crate) fn len(&self) -> usize
        ensures { result ≡ length self.now }
    {
        self.tasks.len()
    }

    /// Parks a task out of its slot, where none of its name is parked.
    ///
    /// # Errors
    ///
    /// Where there is no room for it; nothing has changed.
    pub(crate) fn park(
        &mut self,
        alloc: Global,
        index: usize,
        slot: &mut Option<Asked<P, B>>,
    ) -> Result<(), AllocError>
        requires there { IsSome slot.old }
        requires waiting { (a : TaskStand P.Lat.Event P.Local) → slot.old ≡ Some a → CanBlock ((P.functions B.program).request a.from) }
        requires same { (a q : TaskStand P.Lat.Event P.Local) → slot.old ≡ Some a → IsAmong q (stands_of self.old) → q.task ≡ a.task → q ≡ a }
        requires theirs { (a : TaskStand P.Lat.Event P.Local) (e : ℕ × TaskStand P.Lat.Event P.Local) → slot.old ≡ Some a → IsAmong e self.old → (e.1.task ≡ a.task) ↔ (e.0 ≡ index) }
        requires once { NoRepeats (tasks_of (stands_of self.old)) }
        ensures ok { (a : TaskStand P.Lat.Event P.Local) → slot.old ≡ Some a → IfOk result (λ _. IsParkedBeside (stands_of self.old) a (stands_of self.new)) }
        ensures entries { (a : TaskStand P.Lat.Event P.Local) (e : ℕ × TaskStand P.Lat.Event P.Local) → slot.old ≡ Some a → IsAmong e self.new → (e ≡ (index, a)) ⊎ IsAmong e self.old }
        ensures once { NoRepeats (tasks_of (stands_of self.new)) }
        ensures err { OnErr result ((slot.new ≡ slot.old) × (self.new ≡ self.old)) }
    {
        let Some(asked) = slot.as_ref() else {
            unreachable!()
        };
        if self.tasks.has(index) {
            return Ok(());
        }
        list_index(
            &mut self.whole,
            &mut self.spots,
            &mut self.freezes,
            alloc,
            index,
            asked,
        )?;
        // Where this is refused the index stays on its list, and is dropped when a step looks there.
        self.tasks.insert(index, slot)
    }

    /// Takes out the tasks that the last step woke, in the order of their names: these entries are
    /// what it brought to the log of its variable.
    #[inline(always)]
    pub(crate) fn wake(
        &mut self,
        core: &Core<'_, P>,
        fresh: &[Entry<<P::Lat as Lattice>::Event>],
        woken: &mut Vec<Asked<P, B>>,
    )
        requires program { core.now.program ≡ B.program }
        requires current { (p : TaskStand P.Lat.Event P.Local) → IsAmong p (stands_of self.old) → ⟦<P as CoreMeaning>⟧.local_in core.now p.task ≡ Some p.from }
        requires once { NoRepeats (tasks_of (stands_of self.old)) }
        requires empty { woken.old.items ≡ [] }
        requires room { length self.old ≤ vec_capacity woken.old }
        ensures woken { IsWoken (λ p. ⟦<P as CoreMeaning>⟧.can_take core.now (Act p.task)) (λ p. MayWake P.Lat.spot_of P.Lat.watched core.now.touched fresh.now ((P.functions core.now.program).request p.from)) (stands_of self.old) (stands_of self.new) woken.new.items }
        ensures by_name { IsStrictlySortedBy (name_cmp P.Lat.Event.cmp) (tasks_of woken.new.items) }
        ensures once { NoRepeats (tasks_of (stands_of self.new)) }
        ensures within { AreWithin self.new self.old }
        ensures few { vec_len woken.new ≤ length self.old }
    {
        // (small, so that a step that wakes none asks for no more)
        if self.tasks.len() == 0 {
            return;
        }
        if !self.may_wake(core) {
            return;
        }
        self.wake_some(core, fresh, woken);
    }

    /// Whether the last step may have woken a parked task.
    #[inline(always)]
    fn may_wake(&self, core: &Core<'_, P>) -> bool
        requires program { core.now.program ≡ B.program }
        requires current { (p : TaskStand P.Lat.Event P.Local) → IsAmong p (stands_of self.now) → ⟦<P as CoreMeaning>⟧.local_in core.now p.task ≡ Some p.from }
        ensures { IsFalse result → (fresh : List (Entry P.Lat.Event)) (p : TaskStand P.Lat.Event P.Local) → IsAmong p (stands_of self.now) → MayWake P.Lat.spot_of P.Lat.watched core.now.touched fresh ((P.functions core.now.program).request p.from) → ⟦<P as CoreMeaning>⟧.can_take core.now (Act p.task) → ⊥ }
    {
        match core.last_touched() {
            Some(Touched::Put(variable)) => self.may_get(variable),
            Some(Touched::Handed(variable)) => self.may_freeze(core, variable),
            Some(Touched::Ended(variable)) => self.may_freeze(core, variable),
            Some(Touched::Other) => false,
            None => false,
        }
    }

    /// Whether a get of the variable may wait.
    #[inline(always)]
    fn may_get(&self, variable: usize) -> bool
        ensures { IsFalse result → (fresh : List (Entry P.Lat.Event)) (p : TaskStand P.Lat.Event P.Local) → IsAmong p (stands_of self.now) → MayWake P.Lat.spot_of P.Lat.watched (Some (Put variable)) fresh ((P.functions B.program).request p.from) → ⊥ }
    {
        if self.has_spots(variable) {
            return true;
        }
        self.has_whole(variable)
    }

    /// Whether a get of the variable may wait at no spot.
    #[inline(always)]
    fn has_whole(&self, variable: usize) -> bool
        ensures { IsFalse result → (p : TaskStand P.Lat.Event P.Local) → IsAmong p (stands_of self.now) → WaitsAt P.Lat.watched variable None ((P.functions B.program).request p.from) → ⊥ }
    {
        match self.whole.lists.get(variable) {
            Some(indices) => !indices.is_empty(),
            None => false,
        }
    }

    /// Whether a get of the variable may wait at a spot.
    #[inline(always)]
    fn has_spots(&self, variable: usize) -> bool
        ensures { IsFalse result → (w : P.Lat.Spot) (p : TaskStand P.Lat.Event P.Local) → IsAmong p (stands_of self.now) → WaitsAt P.Lat.watched variable (Some w) ((P.functions B.program).request p.from) → ⊥ }
    {
        match self.spots.tables.get(variable) {
            Some(lists) => !lists.is_empty(),
            None => false,
        }
    }

    /// Whether a freeze of the variable may wait that can go on.
    #[inline(always)]
    fn may_freeze(&self, core: &Core<'_, P>, variable: usize) -> bool
        requires program { core.now.program ≡ B.program }
        requires current { (p : TaskStand P.Lat.Event P.Local) → IsAmong p (stands_of self.now) → ⟦<P as CoreMeaning>⟧.local_in core.now p.task ≡ Some p.from }
        ensures { IsFalse result → (fresh : List (Entry P.Lat.Event)) (p : TaskStand P.Lat.Event P.Local) → IsAmong p (stands_of self.now) → MayWake P.Lat.spot_of P.Lat.watched (Some (Handed variable)) fresh ((P.functions core.now.program).request p.from) → ⟦<P as CoreMeaning>⟧.can_take core.now (Act p.task) → ⊥ }
    {
        let Some(indices) = self.freezes.lists.get(variable) else {
            return false;
        };
        if indices.is_empty() {
            return false;
        }
        // While something is left to hand there, no freeze can go on.
        core.is_drained_at(variable)
    }

    /// Takes out the tasks that the last step woke, where some may be.
    fn wake_some(
        &mut self,
        core: &Core<'_, P>,
        fresh: &[Entry<<P::Lat as Lattice>::Event>],
        woken: &mut Vec<Asked<P, B>>,
    )
        requires program { core.now.program ≡ B.program }
        requires current { (p : TaskStand P.Lat.Event P.Local) → IsAmong p (stands_of self.old) → ⟦<P as CoreMeaning>⟧.local_in core.now p.task ≡ Some p.from }
        requires once { NoRepeats (tasks_of (stands_of self.old)) }
        requires empty { woken.old.items ≡ [] }
        requires room { length self.old ≤ vec_capacity woken.old }
        ensures woken { IsWoken (λ p. ⟦<P as CoreMeaning>⟧.can_take core.now (Act p.task)) (λ p. MayWake P.Lat.spot_of P.Lat.watched core.now.touched fresh.now ((P.functions core.now.program).request p.from)) (stands_of self.old) (stands_of self.new) woken.new.items }
        ensures by_name { IsStrictlySortedBy (name_cmp P.Lat.Event.cmp) (tasks_of woken.new.items) }
        ensures once { NoRepeats (tasks_of (stands_of self.new)) }
        ensures within { AreWithin self.new self.old }
        ensures few { vec_len woken.new ≤ length self.old }
    {
        match core.last_touched() {
            Some(Touched::Put(variable)) => self.wake_gets(core, variable, fresh, woken),
            Some(Touched::Handed(variable)) => self.wake_freezes(core, variable, woken),
            Some(Touched::Ended(variable)) => self.wake_freezes(core, variable, woken),
            Some(Touched::Other) => {}
            None => {}
        }
        sort_by_task(woken);
    }

    /// Takes out the gets that these entries of the variable's log woke.
    fn wake_gets(
        &mut self,
        core: &Core<'_, P>,
        variable: usize,
        fresh: &[Entry<<P::Lat as Lattice>::Event>],
        woken: &mut Vec<Asked<P, B>>,
    )
        requires program { core.now.program ≡ B.program }
        requires current { (p : TaskStand P.Lat.Event P.Local) → IsAmong p (stands_of self.old) → ⟦<P as CoreMeaning>⟧.local_in core.now p.task ≡ Some p.from }
        requires once { NoRepeats (tasks_of (stands_of self.old)) }
        requires room { vec_len woken.old + length self.old ≤ vec_capacity woken.old }
        ensures wakes { Wakes (λ p. ⟦<P as CoreMeaning>⟧.can_take core.now (Act p.task)) (λ p. MayWake P.Lat.spot_of P.Lat.watched (Some (Put variable)) fresh.now ((P.functions core.now.program).request p.from)) (stands_of self.old) (stands_of self.new) woken.old.items woken.new.items }
        ensures once { NoRepeats (tasks_of (stands_of self.new)) }
        ensures within { AreWithin self.new self.old }
    {
        self.wake_whole(core, variable, woken);
        // (where no get ever waited at a spot of the variable, no spot is hashed)
        if !self.has_spots(variable) {
            return;
        }
        for entry in fresh {
            let spot = <P::Lat as Reads>::spot(&entry.event);
            self.wake_at(core, variable, &spot, woken);
        }
    }

    /// Takes out the gets that wait at no spot of the variable and can go on.
    fn wake_whole(&mut self, core: &Core<'_, P>, variable: usize, woken: &mut Vec<Asked<P, B>>)
        requires program { core.now.program ≡ B.program }
        requires current { (p : TaskStand P.Lat.Event P.Local) → IsAmong p (stands_of self.old) → ⟦<P as CoreMeaning>⟧.local_in core.now p.task ≡ Some p.from }
        requires once { NoRepeats (tasks_of (stands_of self.old)) }
        requires room { vec_len woken.old + length self.old ≤ vec_capacity woken.old }
        ensures wakes { Wakes (λ p. ⟦<P as CoreMeaning>⟧.can_take core.now (Act p.task)) (λ p. WaitsAt P.Lat.watched variable None ((P.functions core.now.program).request p.from)) (stands_of self.old) (stands_of self.new) woken.old.items woken.new.items }
        ensures once { NoRepeats (tasks_of (stands_of self.new)) }
        ensures within { AreWithin self.new self.old }
        ensures capacity { vec_capacity woken.new ≡ vec_capacity woken.old }
    {
        if let Some(indices) = self.whole.lists.get_mut(variable) {
            self.tasks.wake_each(core, indices, woken);
        }
    }

    /// Takes out the gets that wait at this spot of the variable and can go on.
    fn wake_at(
        &mut self,
        core: &Core<'_, P>,
        variable: usize,
        spot: &<P::Lat as Reads>::Spot,
        woken: &mut Vec<Asked<P, B>>,
    )
        requires program { core.now.program ≡ B.program }
        requires current { (p : TaskStand P.Lat.Event P.Local) → IsAmong p (stands_of self.old) → ⟦<P as CoreMeaning>⟧.local_in core.now p.task ≡ Some p.from }
        requires once { NoRepeats (tasks_of (stands_of self.old)) }
        requires room { vec_len woken.old + length self.old ≤ vec_capacity woken.old }
        ensures wakes { Wakes (λ p. ⟦<P as CoreMeaning>⟧.can_take core.now (Act p.task)) (λ p. WaitsAt P.Lat.watched variable (Some spot.now) ((P.functions core.now.program).request p.from)) (stands_of self.old) (stands_of self.new) woken.old.items woken.new.items }
        ensures once { NoRepeats (tasks_of (stands_of self.new)) }
        ensures within { AreWithin self.new self.old }
        ensures capacity { vec_capacity woken.new ≡ vec_capacity woken.old }
    {
        if let Some(lists) = self.spots.tables.get_mut(variable) {
            self.tasks.wake_under(core, lists, spot, woken);
        }
    }

    /// Takes out the freezes of the variable that can go on.
    fn wake_freezes(&mut self, core: &Core<'_, P>, variable: usize, woken: &mut Vec<Asked<P, B>>)
        requires program { core.now.program ≡ B.program }
        requires current { (p : TaskStand P.Lat.Event P.Local) → IsAmong p (stands_of self.old) → ⟦<P as CoreMeaning>⟧.local_in core.now p.task ≡ Some p.from }
        requires once { NoRepeats (tasks_of (stands_of self.old)) }
        requires room { vec_len woken.old + length self.old ≤ vec_capacity woken.old }
        ensures wakes { Wakes (λ p. ⟦<P as CoreMeaning>⟧.can_take core.now (Act p.task)) (λ p. MayWake P.Lat.spot_of P.Lat.watched (Some (Handed variable)) [] ((P.functions core.now.program).request p.from)) (stands_of self.old) (stands_of self.new) woken.old.items woken.new.items }
        ensures once { NoRepeats (tasks_of (stands_of self.new)) }
        ensures within { AreWithin self.new self.old }
    {
        if let Some(indices) = self.freezes.lists.get_mut(variable) {
            self.tasks.wake_each(core, indices, woken);
        }
    }
}

/// Adds the index of a task to the list of what it waits for.
///
/// # Errors
///
/// Where there is no room for it.
fn list_index<P: Program, B: BoardBrand<P>>(
    whole: &mut ByVariable,
    spots: &mut BySpot<<P::Lat as Reads>::Spot>,
    freezes: &mut ByVariable,
    alloc: Global,
    index: usize,
    asked: &Asked<P, B>,
) -> Result<(), AllocError>
    requires waiting { CanBlock ((P.functions B.program).request asked.now.from) }
    ensures kept { (r : Request P.Lat P.Lat.Read P.Local) (t : ℕ) → IsOnItsList P.Lat.Spot.eq P.Lat.watched whole.old.lists.items spots.old.tables.items freezes.old.lists.items r t → IsOnItsList P.Lat.Spot.eq P.Lat.watched whole.new.lists.items spots.new.tables.items freezes.new.lists.items r t }
    ensures there { OnOk result (IsOnItsList P.Lat.Spot.eq P.Lat.watched whole.new.lists.items spots.new.tables.items freezes.new.lists.items ((P.functions B.program).request asked.now.from) index) }
{
    match asked.request() {
        Request::Get(variable, read) => match <P::Lat as Reads>::watch(read) {
            Some(spot) => spots.push(alloc, *variable, spot, index),
            None => whole.push(alloc, *variable, index),
        },
        Request::Freeze(variable, _) => freezes.push(alloc, *variable, index),
        _ => unreachable!(),
    }
}

/// Orders these tasks by their names.
fn sort_by_task<P: Program, B: BoardBrand<P>>(woken: &mut Vec<Asked<P, B>>)
    ensures permutation { IsPermutation woken.old.items woken.new.items }
    ensures sorted { IsSortedBy (λ x y. is_lt (name_cmp P.Lat.Event.cmp x.task y.task)) woken.new.items }
    ensures len { vec_len woken.new ≡ vec_len woken.old }
    ensures capacity { vec_capacity woken.new ≡ vec_capacity woken.old }
{
    if woken.len() < 2 {
        return;
    }
    woken.sort_unstable_by(order);
}

/// The order of the names of two tasks.
fn order<P: Program, B: BoardBrand<P>>(one: &Asked<P, B>, other: &Asked<P, B>) -> Ordering
    ensures { result ≡ name_cmp P.Lat.Event.cmp one.now.task other.now.task }
{
    one.task().cmp(other.task())
}

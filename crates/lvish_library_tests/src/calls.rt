//! The calls of a lattice through its bound alone.

ghost use Rattle.std.specs.Prelude.{◌≡◌, ◌↔◌, IfOk, IfErr, IsTrue, is_some, unwrap_or};
ghost use Rattle.lvish_lattice.specs.Lattice.{IsAtOrBelow, IsChecked, IsOutcome, fresh_of};

use lvish_lattice::{Brought, Lattice, Reads};
use std::alloc::{AllocError, Global};

/// The join of two states, `None` where it is top.
pub fn join_of<L: Lattice>(alloc: Global, a: &L, b: &L) -> Result<Option<L>, AllocError>
    ensures { IfOk result (λ r. r ≡ L.joined a.now b.now) }
{
    a.join(alloc, b)
}

/// The least state.
pub fn bottom_of<L: Lattice>(alloc: Global) -> L
    ensures { result ≡ L.least }
{
    L::bottom(alloc)
}

/// Whether one state is at or below another.
pub fn is_below<L: Lattice>(a: &L, b: &L) -> bool
    ensures { IsTrue result ↔ IsAtOrBelow L.joined a.now b.now }
{
    a.leq(b)
}

/// The events of a state, ascending.
pub fn events_of<L: Lattice>(alloc: Global, a: &L) -> Result<Vec<L::Event>, AllocError>
    ensures { IfOk result (λ v. v.items ≡ L.events_of a.now) }
{
    a.events(alloc)
}

/// The events that a put brings to a state, ascending.
pub fn fresh_of<L: Lattice>(alloc: Global, old: &L, put: &L) -> Result<Vec<L::Event>, AllocError>
    ensures { IfOk result (λ v. v.items ≡ fresh_of L.joined L.Event.eq L.events_of old.now put.now) }
{
    L::fresh(alloc, old, put)
}

/// An equal state.
pub fn copy_of<L: Lattice>(alloc: Global, a: &L) -> Result<L, AllocError>
    ensures { IfOk result (λ r. r ≡ a.now) }
{
    a.copy(alloc)
}

/// Joins a put to a state; false, with the state as it was, where the join is top.
pub fn merge_into<L: Lattice>(alloc: Global, a: &mut L, put: &L) -> Result<bool, AllocError>
    ensures merged { IfOk result (λ b. (b ≡ is_some (L.joined a.old put.now)) × (a.new ≡ unwrap_or (L.joined a.old put.now) a.old)) }
    ensures refused { IfErr result (λ _. a.new ≡ a.old) }
{
    a.merge(alloc, put)
}

/// Joins a put to a state, and says what it brought, where that is one event at most.
pub fn merge_one_into<L: Lattice>(
    alloc: Global,
    a: &mut L,
    put: &L,
) -> Result<Brought<L::Event>, AllocError>
    ensures merged { IfOk result (λ b. IsOutcome (L.joined a.old put.now) (fresh_of L.joined L.Event.eq L.events_of a.old put.now) a.old a.new b) }
    ensures refused { IfErr result (λ _. a.new ≡ a.old) }
{
    a.merge_one(alloc, put)
}

/// Whether any two members of different groups of a read join to top.
pub fn is_checked<L: Reads>(read: &L::Read) -> bool
    ensures { IsTrue result ↔ IsChecked L.joined (L.member read.now) }
{
    L::check(read)
}

/// The answer of a read in a state, if there is one.
pub fn answer_of<L: Reads>(read: &L::Read, state: &L) -> Option<L::Answer>
    ensures { result ≡ L.answer_of read.now state.now }
{
    L::trigger(read, state)
}

/// The spot of an event.
pub fn spot_of<L: Reads>(event: &L::Event) -> L::Spot
    ensures { result ≡ L.spot_of event.now }
{
    L::spot(event)
}

/// The spot at which a read waits, `None` where it waits for any event.
pub fn watched_by<L: Reads>(read: &L::Read) -> Option<L::Spot>
    ensures { result ≡ L.watched read.now }
{
    L::watch(read)
}

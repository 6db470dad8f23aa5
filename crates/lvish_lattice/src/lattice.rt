ghost use Rattle.std.specs.Prelude.{◌≡◌, ◌↔◌, List, Option, Some, IfOk, IfErr, is_some, unwrap_or, IsTrue};
ghost use Rattle.lvish_lattice.specs.Lattice.{IsIdentity, IsJoin, IsAtOrBelow, HasEvents, IsOutcome, IsChecked, IsAnswered, IsWatched, fresh_of};

use crate::brought::Brought;
use std::alloc::{AllocError, Global};
use std::hash::Hash;

/// Small values whose `==` holds of identical values alone.
pub trait Plain: Ord + Copy {
    ghost identical: { IsIdentity Self.eq };
}

/// The states of an LVar: a partial join with a least state, each state the join of its events.
///
/// A state is an element of the lattice other than its greatest, which stands for error
/// (Kuper and Newton, LVars, FHPC 2013).
pub trait Lattice: Eq + Drop {
    /// What a state is made of; a put introduces the events that it brings.
    type Event: Plain + Hash;

    ghost least: { Self };

    /// The join of two states, `None` where it is top.
    ghost joined: { Self → Self → Option Self };

    /// The events of a state, ascending.
    ghost events_of: { Self → List Self.Event };

    /// The least state, which has no events.
    fn bottom(alloc: Global) -> Self
        ensures { result ≡ least };

    /// The join of two states, `None` where it is top.
    fn join(&self, alloc: Global, other: &Self) -> Result<Option<Self>, AllocError>
        ensures { IfOk result (λ r. r ≡ joined self.now other.now) };

    /// Whether this state is at or below the other: their join is the other.
    fn leq(&self, other: &Self) -> bool
        ensures { IsTrue result ↔ IsAtOrBelow joined self.now other.now };

    /// The events of this state, ascending.
    fn events(&self, alloc: Global) -> Result<Vec<Self::Event>, AllocError>
        ensures { IfOk result (λ v. v.items ≡ events_of self.now) };

    /// The events of the join of `old` and `put` that `old` does not have, ascending; none where
    /// the join is top.
    fn fresh(alloc: Global, old: &Self, put: &Self) -> Result<Vec<Self::Event>, AllocError>
        ensures { IfOk result (λ v. v.items ≡ fresh_of joined Self.Event.eq events_of old.now put.now) };

    /// An equal state.
    fn copy(&self, alloc: Global) -> Result<Self, AllocError>
        ensures { IfOk result (λ r. r ≡ self.now) };

    /// Joins `put` to this state in place. Answers false, and changes nothing, where the join is top.
    fn merge(&mut self, alloc: Global, put: &Self) -> Result<bool, AllocError>
        ensures merged { IfOk result (λ b. (b ≡ is_some (joined self.old put.now)) × (self.new ≡ unwrap_or (joined self.old put.now) self.old)) }
        ensures refused { IfErr result (λ _. self.new ≡ self.old) }
    {
        match self.join(alloc, put)? {
            Some(new) => {
                *self = new;
                Ok(true)
            }
            None => Ok(false),
        }
    }

    /// Joins `put` to this state in place, and says what it brought, where that is one event at most:
    /// so a put of one event, as most are, takes one search and no list.
    fn merge_one(&mut self, alloc: Global, put: &Self) -> Result<Brought<Self::Event>, AllocError>
        ensures merged { IfOk result (λ b. IsOutcome (joined self.old put.now) (fresh_of joined Self.Event.eq events_of self.old put.now) self.old self.new b) }
        ensures refused { IfErr result (λ _. self.new ≡ self.old) }
    {
        Ok(Brought::Listed)
    }

    ghost identical: { IsIdentity Self.eq };

    ghost is_join: { IsJoin least joined };

    ghost has_events: { HasEvents least joined Self.Event.eq Self.Event.cmp events_of };
}

/// A lattice that is read by threshold sets (Kuper and Newton, LVars, FHPC 2013): sets of groups,
/// each a set of states with one answer.
pub trait Reads: Lattice {
    /// A threshold set, as a program writes it.
    type Read: Drop;

    /// What a read answers: never the content, only which group was reached.
    type Answer: Copy;

    /// What an event has in common with the reads that it can wake.
    type Spot: Plain + Hash;

    /// The members of a threshold set, each a state with the answer of its group; those with one answer
    /// are one group.
    ghost member: { Self.Read → Self → Self.Answer → Type 0 };

    /// The answer of a read in a state, if there is one.
    ghost answer_of: { Self.Read → Self → Option Self.Answer };

    /// The spot of an event.
    ghost spot_of: { Self.Event → Self.Spot };

    /// The one spot whose events can wake the read; `None` where any event can.
    ghost watched: { Self.Read → Option Self.Spot };

    /// Whether any two members of different groups join to top.
    fn check(read: &Self::Read) -> bool
        ensures { IsTrue result ↔ IsChecked Self.joined (member read.now) };

    /// The answer of the read in the state: on a checked read that of the one group with a member at
    /// or below it, if there is one.
    fn trigger(read: &Self::Read, state: &Self) -> Option<Self::Answer>
        ensures { result ≡ answer_of read.now state.now };

    /// The spot of the event.
    fn spot(event: &Self::Event) -> Self::Spot
        ensures { result ≡ spot_of event.now };

    /// The spot at which a read waits: only an event of this spot can bring it an answer; `None`
    /// where any event can.
    fn watch(read: &Self::Read) -> Option<Self::Spot>
        ensures { result ≡ watched read.now };

    ghost waits: { IsWatched Self.Event.eq Self.events_of spot_of watched answer_of };

    ghost answers: { (r : Self.Read) → IsChecked Self.joined (member r) → IsAnswered Self.joined (member r) (answer_of r) };
}

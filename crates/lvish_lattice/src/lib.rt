//! Lattices whose states are sets of events, and threshold reads.
//!
//! A shared variable holds a state of a lattice. A put joins to it, so the order of puts is
//! lost; a join may be top, which is no state and stands for an error. Each state is the join
//! of finitely many events, in one ascending order: what a put brings to a state is the list of
//! its fresh events. A variable is read by a threshold set: groups of states, where members of
//! different groups join to top, so at most one group has a member at or below the state, and the
//! read answers which one and not the state (Kuper and Newton, LVars, FHPC 2013).
//!
//! ```text
//! let mut state = Flat::Bottom;
//! let put = Flat::Value(5);
//! let fresh = Flat::fresh(alloc, &state, &put)?;   // [5]
//! let joined = state.merge(alloc, &put)?;          // true: the state is Value(5)
//! let answer = Flat::trigger(&FlatRead::Any, &state); // Some(5)
//! let again = state.merge(alloc, &Flat::Value(6))?; // false: top, and the state is Value(5)
//!
//! let mut state = GrowSet::of(alloc, &[3, 1])?;
//! let put = GrowSet::of(alloc, &[2, 3])?;
//! let fresh = GrowSet::fresh(alloc, &state, &put)?; // [2]
//! let joined = state.merge(alloc, &put)?;           // true: the state is {1 2 3}
//! let read = Members::In(Items::new(vec![in alloc; 2]?));
//! let answer = GrowSet::trigger(&read, &state);     // Some(2)
//! ```
//!
//! `Flat` is a cell that is written once, `GrowSet` a set and `MaxCounter` a number that only
//! grow. The joins of the last two are never top.
#![tactic(auto)]

mod brought;
mod elements;
mod flat;
mod grow_set;
mod integers;
mod lattice;
pub mod laws;
mod max_counter;
mod numbered;
mod ranked;
mod reads;
mod row;
mod set_iter;
mod trees;
mod tuples;

pub use brought::Brought;
pub use flat::{Flat, FlatRead, Whole};
pub use grow_set::{GrowSet, Members};
pub use lattice::{Lattice, Plain, Reads};
pub use lvish_base::{HIGHEST_LEVEL, Items};
pub use max_counter::{Levels, MaxCounter, Range};
pub use numbered::Numbered;
pub use ranked::Ranked;
pub use reads::{has_one_value, one_of};
pub use set_iter::SetIter;

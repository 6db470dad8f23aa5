//! Lattices made of lattices.
//!
//! A map has a state of its part's lattice at each key, and bottom where it has no entry. It is
//! joined key by key, so a put with one key leaves the others as they are, and a join is top
//! where that of some key is. Its events are pairs of a key and an event of the part there, and
//! it is read at one key by the reads of the part. A type of keys is a `Key`: it says which keys
//! are neighbours, and these stand together.
//!
//! ```text
//! let mut scores: MapOf<i64, Flat<i64>> = MapOf::new(alloc);
//! let put = MapOf::one(alloc, 1, Flat::Value(5))?;
//! let joined = scores.merge(alloc, &put)?;              // true: {1:5}
//! let read = AtKey { key: 1, read: FlatRead::Any };
//! let answer = MapOf::trigger(&read, &scores);          // Some(5)
//! ```
//!
//! A `Pair` is joined side by side; its events and reads are those of a side. A `Tally` is a map
//! from keys to amounts whose total has a bound. A `Part` is empty, a cell, a set or a counter, and an
//! `Any` a part, a map, two parts side by side or a tally: what a variable of a script holds.
//! Different kinds join to top. Its events have a key, a kind and a number, and it is read by an
//! `AnyRead`.
//!
//! ```text
//! let mut state = Any::entry(alloc, 1, 5)?;
//! let put = Any::entry(alloc, 2, 7)?;
//! let joined = state.merge(alloc, &put)?;               // true: {1:5 2:7}
//! let read = AnyRead::new(Place::Key(2), Test::Any)?;
//! let answer = Any::trigger(&read, &state);             // Some(7)
//! ```
#![tactic(auto)]

mod above;
mod amount_fault;
mod any;
mod any_events;
mod any_read;
mod block;
mod block_iter;
mod entries;
mod entry_iter;
mod event;
mod key;
mod keyed;
mod kind;
pub mod laws;
mod limits;
mod map_of;
mod map_reads;
mod number_test;
mod pair;
mod part;
mod place;
mod side_of;
mod sides;
mod spots;
mod tally;
mod tree;

pub use above::Above;
pub use amount_fault::AmountFault;
pub use any::{Any, Wrong};
pub use any_read::AnyRead;
pub use entry_iter::EntryIter;
pub use event::Event;
pub use key::Key;
pub use kind::Kind;
pub use limits::HIGHEST_TOTAL;
pub use map_of::MapOf;
pub use map_reads::AtKey;
pub use number_test::Test;
pub use pair::Pair;
pub use part::{Part, PartEvent};
pub use place::Place;
pub use side_of::SideOf;
pub use sides::Sides;
pub use tally::Tally;

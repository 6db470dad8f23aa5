//! What crates of every kind are made of: lists and boxes that a contract sees as their values,
//! and the limit that scripts and lattices share.
//!
//! ```text
//! pub type Numbers = Items<i64>;
//!
//! let numbers: Numbers = Items::new(vec![in alloc; 3, 5]?); // a contract sees the list [3 5]
//! let again = numbers.copy(alloc)?;                         // another with the same items
//! let last = numbers.as_slice().last();                     // Some(5)
//!
//! let boxed = Boxed::new(alloc, numbers)?; // a contract sees the same list
//! ```
#![tactic(auto)]

mod boxed;
mod items;
mod limits;

pub use boxed::Boxed;
pub use items::Items;
pub use limits::HIGHEST_LEVEL;

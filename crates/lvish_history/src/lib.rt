//! Stamps: numbers that stand for values, so that two holders of equal numbers hold equal values,
//! and nobody compares them.
//!
//! A [`History`] gives each value a number of its own. What it numbered is written down in the proofs
//! alone: a [`Stamp`] is a number, and a contract sees the value beside it.
//!
//! ```
//! let mut history = Opened::new().named::<O>();
//! let stamp = history.stamp(&value);
//! let sent = stamp.copy();
//! // Later, or in another thread: the value that one of them was made for is the other's.
//! if stamp.is(&sent) { .. }
//! ```
#![tactic(auto)]

mod history;
mod limits;
mod log;
mod origin;
mod stamp;

pub use history::{History, Opened};
pub use origin::Origin;
pub use stamp::Stamp;

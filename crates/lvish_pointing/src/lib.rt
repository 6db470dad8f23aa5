//! Who points to whom: Andersen's analysis by rules, and the theorem over the bytes of its file.
//!
//! ```text
//! let answer = points_answer(&rt, alloc, b"address p x\ncopy q p\n", 1, 1_000_000)?;
//! answer.text;     // "p: x\nq: x\n": what holds in every solution of the constraints
//! answer.is_whole; // or the budget was used up, and each name of it holds in every solution
//! ```
#![tactic(auto)]

mod answer;
mod constraints;
mod fact;
mod fault;
mod listing;
mod numbering;
mod pointing;
mod reading;
mod watching;

pub use answer::{Pointed, points_answer};
pub use constraints::Constraints;
pub use fact::{Fact, Kind};
pub use fault::{Expected, PointFault};
pub use watching::Watching;

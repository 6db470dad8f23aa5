//! Which nodes a list of edges reaches from a root: an analysis by rules, and the theorem over the
//! bytes of its file.
//!
//! ```text
//! let answer = reach_answer(&rt, alloc, b"a b\nb c d\n", "a", 4, 1_000_000)?;
//! answer.text;     // "a\nb\nc\nd\n": exactly what is reachable, sorted, where it is whole
//! answer.is_whole; // or the budget was used up, and each line is reachable
//! ```
#![tactic(auto)]

mod answer;
mod fault;
mod graph;
mod listing;
mod reading;
mod walk;

pub use answer::{Reached, reach_answer};
pub use fault::ReachFault;
pub use graph::{Graph, ROOT};
pub use reading::read_graph;

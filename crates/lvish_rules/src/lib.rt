//! Analyses given by rules: what is put into relations at first, and what follows where a watch is
//! handed an event of a relation.
//!
//! ```text
//! let analysis = Ruled { rules: Graph { root: 0, next } };
//! let answer = solve(&rt, alloc, &analysis, 4, 1_000_000)?;
//! if answer.is_whole() {
//!     // The set of relation 0 is exactly what can be reached from the root.
//!     let reached = answer.state(0);
//! }
//! ```
#![tactic(auto)]

mod answer;
mod fault;
pub mod laws;
mod moves;
mod reach;
mod ruled;
mod rules;
mod solving;

pub use answer::Answer;
pub use fault::SolveFault;
pub use lvish_run::{MOST_PROGRAM_STEPS, MOST_WORKERS};
pub use moves::Move;
pub use reach::Graph;
pub use ruled::Ruled;
pub use rules::Rules;
pub use solving::{solve, solve_alone};

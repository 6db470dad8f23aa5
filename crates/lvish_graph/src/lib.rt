//! What a script does at a glance: which procedure puts into, reads and freezes which variable, for
//! which pools it waits, which procedures it forks and calls, and which handlers it adds.
//!
//! ```text
//! let text = graph_text(alloc, &script)?;
//! // next
//! //   puts found
//! // main
//! //   puts found
//! //   freezes found
//! //   waits for seen
//! //   handles seen by next
//! ```
//!
//! [`graph_dot`] gives the same as a graph for Graphviz.
#![tactic(auto)]

mod deed;
mod dot;
pub mod laws;
mod names;
mod text;
mod told;
mod verb;

pub use dot::graph_dot;
pub use text::graph_text;

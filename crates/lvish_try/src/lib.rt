//! Runs of a script by drawn picks, and what they come to.
//!
//! [`try_runs`] makes as many runs as it is asked for. The first has no picks; each other one takes at
//! each step a pick that is drawn for it, from the seed and the run's number alone. What the runs come to
//! stands in a [`Tried`]: each outcome once, with how often it came and picks that give it.
//!
//! ```text
//! let tried = try_runs(alloc, &script, 100, 7, 10_000)?;
//! print(tried_text(alloc, &script, &tried)?);
//! if !tried.agree() {
//!     // two of the runs came to different outcomes
//! }
//! ```
#![tactic(auto)]

mod draw;
mod front;
mod gather;
pub mod laws;
mod place;
mod shown;
mod text;
mod tried;

pub use gather::try_runs;
pub use text::tried_text;
pub use tried::{Found, FoundRuns, Picks, Tried};

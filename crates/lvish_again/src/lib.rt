//! The picks that make a run again.
//!
//! A run by workers takes its steps in an order that no second run need take. [`picks_of`] gives the
//! picks that make just this run on one thread: `lvish_run`'s `run_picks` with them, and with the
//! budget of the report, has the same steps and tells the same (the law
//! [`made_again`](crate::laws::made_again)).
//!
//! ```text
//! let report = run(&rt, alloc, &script, 4, budget, &Open)?;
//! if let Some(picks) = picks_of(alloc, &script, &report)? {
//!     let again = run_picks(alloc, &script, picks.as_slice(), budget)?;
//!     // `again` tells what `report` tells, and has its trace.
//! }
//! ```

#![tactic(auto)]

mod cut;
pub mod laws;
mod picks;
mod place;
mod text;
mod walk;

pub use picks::picks_of;
pub use text::picks_text;

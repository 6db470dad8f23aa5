//! The trace of a run: its steps, and how it came out.
//!
//! Whoever makes steps notes each as a number, in eight bytes ([`PackedStep`]). With the names of the run's
//! tasks the numbers are a [`Trace`], which says of each step the worker and the label
//! ([`TraceEntry`]). An [`Outcome`] says how the run came to its last configuration.
//!
//! ```text
//! noted.push(PackedStep::new(worker, Step::Act(index))?)?;
//! let trace = Trace::new(noted, names, logs);
//! let Some(TracedStep::Run(task)) = trace.step(0) else { .. };
//! ```
#![tactic(auto)]

mod outcome;
mod packed_step;
mod trace;
mod trace_entry;

pub use outcome::Outcome;
pub use packed_step::{PackedStep, Step};
pub use trace::{Trace, TracedStep};
pub use trace_entry::{TraceEntry, entry_by};

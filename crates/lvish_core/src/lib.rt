//! The machine: a core makes the steps of a program, one at a time.
//!
//! A [`Core`] borrows its program. `labels` lists the steps that can be made, `step` makes one;
//! each is one step of the calculus, so whatever is called, the core stands for the last
//! configuration of a run of exactly `steps()` labels. That run hands each handler the events of
//! its variable in the order in which they were put.
//!
//! ```
//! let mut core = Core::new(alloc, &program)?;
//! while !core.is_ended(alloc)? {
//!     let labels = core.labels(alloc)?;
//!     // Any of them, in any order.
//!     let Some(label) = labels.first() else { break };
//!     if let Stepped::Error(_) = core.step(alloc, label)? {
//!         break;
//!     }
//! }
//! ```
#![tactic(auto)]

mod begun;
mod beside;
mod child;
mod core_meaning;
mod drained;
mod ending;
pub mod examples;
mod fault;
mod handler_place;
pub mod laws;
mod limits;
mod machine;
mod moved;
mod places;
mod pools;
mod resumed;
mod seat;
mod stage;
mod tasks;
mod touched;

pub use core_meaning::CoreMeaning;
pub use fault::{RunError, StepFault, Stepped};
pub use limits::MOST_PROGRAM_STEPS;
pub use machine::Core;
pub use moved::{Made, Moved};
pub use stage::TaskNumbers;
pub use touched::Touched;

//! A run told step by step.
//!
//! A report has the trace of its run: which task made each step. [`retrace`] walks a core by these
//! labels once more, and tells of each step which task acts, what it asks and in which line of the
//! script's text; which put brought each event; and where each task stands in the end, with its
//! calls and its locals.
//!
//! ```text
//! let code = ScriptCode::new(alloc, &script)?;
//! if let Some(told) = retrace(alloc, &code, text, &report)? {
//!     if let Some(place) = put_of(told.story.brought.as_slice(), variable, &event) {
//!         let put = &told.story.brought[place];
//!         let step = &told.story.steps[put.step];
//!         // the task told.story.names[step.task] put it, in line step.line
//!     }
//! }
//! ```
#![tactic(auto)]

mod act;
mod begin;
mod bringer;
mod crew;
mod frame;
mod live;
mod make;
mod pools;
mod procedure;
mod retracing;
mod stand;
mod standing;
mod story;
mod text;
mod told;
mod told_step;
mod values;
mod walk;

pub use act::Act;
pub use begin::Begin;
pub use bringer::{Bringer, put_of};
pub use live::Live;
pub use pools::InPools;
pub use procedure::ToldProcedure;
pub use retracing::retrace;
pub use standing::{Call, Standing};
pub use story::Story;
pub use told::Told;
pub use told_step::ToldStep;

//! Reports of runs, and their texts.
//!
//! A [`Report`] says what a run came to: its outcome, the state of each variable, the numbers of steps
//! and of tasks that haven't ended, its trace, and how many steps each worker made. [`report_text`] is
//! the text that a user sees, and [`trace_text`] that of the trace.
//!
//! ```text
//! print(report_text(alloc, &script, &report, true)?);
//! ```
#![tactic(auto)]

mod error_line;
pub mod laws;
mod number_text;
mod report;
mod state_text;
mod text;
mod trace_lines;

pub use report::{Counts, FinalState, Freezes, Report, States};
pub use text::report_text;
pub use trace_lines::trace_text;

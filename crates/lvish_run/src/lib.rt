//! Runs of scripts and of other programs, and their reports.
//!
//! [`run`] runs a script by 1 to 8 workers round one board: by one alone, and by all where that pays. [`run_picks`]
//! makes the steps on one thread, taking at each step the enabled label that a list of picks names, and
//! the first when the picks are used up. [`run_program`] and [`run_program_picks`] do the same with any [`Runnable`]
//! program.
//! A [`Report`] is honest: its trace is a run of the script's nested statements, or of the program. Unless the run is in
//! error, its states are those of the run's last configuration, and `blocked` counts the tasks that
//! haven't ended there; at an end, all of them are blocked. [`always_ends`] says beforehand after how
//! many steps every run of a script has ended.
//!
//! ```text
//! let report = run(&rt, alloc, &script, 2, 100_000, &Open)?;
//! print(report_text(alloc, &script, &report, true)?);
//! ```
#![tactic(auto)]

mod account;
mod agenda;
mod boxed_asked;
mod closing;
mod count_by_worker;
mod crew;
mod ends;
mod fault;
mod gate;
mod hall;
pub mod laws;
mod leave;
mod limits;
mod naming;
mod opening;
mod own;
mod pace;
mod picks;
mod queue;
mod rank;
mod runnable;
mod runner;
mod scripts;
mod seek;
mod setting;
mod shared;
mod shift;
mod staffed;
mod turn;
mod worker;
mod workers;

pub use closing::report_of;
pub use ends::{always_alike, always_ends};
pub use fault::RunFault;
pub use gate::{Gate, Open};
pub use limits::{MOST_PROGRAM_STEPS, MOST_STEPS, MOST_WORKERS};
pub use lvish_report::{Counts, FinalState, Freezes, Report, States, report_text, trace_text};
pub use lvish_trace::{Outcome, Trace, TraceEntry};
pub use picks::pick_at;
pub use runnable::{Runnable, Shareable};
pub use runner::run_program_picks;
pub use scripts::{RunMeaning, run_picks};
pub use workers::{run, run_program};

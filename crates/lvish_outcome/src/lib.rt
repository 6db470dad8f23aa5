//! What a run came to, as a text for whoever wrote the script.
//!
//! ```text
//! let report = run_picks(alloc, &script, &[], budget)?;
//! write(explain_outcome(alloc, "w.lvish", text, &script, &report)?);
//! // w.lvish:4:5: main/2 puts 7 into the cell `a`, where 5 is
//! //     put a n
//! //         ^
//! // at: main/2, in writer, line 4, with n 7
//! // there: main/1 put it at line 4, in step 4
//! // again: lvish pick w.lvish
//! ```
#![tactic(auto)]

mod again;
mod count;
mod earlier;
mod find_blocked;
mod find_command;
mod find_earlier;
mod find_error;
mod find_standing;
mod find_trouble;
mod find_wait;
mod outcome;
mod saying;
mod so_far;
mod spot;
mod spots;
mod standing;
mod telling;
mod told;
mod trouble;
mod values;
mod wait;

pub use outcome::explain_outcome;

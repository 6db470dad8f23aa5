//! What programs of analyses have in common at their ends: words, the file that is read, the text that is
//! written, and what standard error says.
//!
//! ```text
//! let begun = Instant::now(&rt);
//! let (status, stats) = match given_words(&rt) {
//!     Ok(words) => command(&rt, words.as_slice()),
//!     Err(status) => (status, None),
//! };
//! end(&rt, begun, &status, stats)
//! ```
#![tactic(auto)]

pub mod arguments;
mod ending;
mod order;
mod reading;
mod stats;
mod status;
mod telling;
mod usage;
mod writing;

pub use ending::{end, given_words};
pub use order::Order;
pub use reading::{ReadFault, read_input};
pub use stats::Stats;
pub use status::Status;
pub use telling::{refusal, tell_usage};
pub use usage::UsageFault;
pub use writing::{WriteFault, write_text};

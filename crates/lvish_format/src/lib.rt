//! A script's text in one layout: one space between words, two for each open block before them,
//! comments and empty lines where they stood, and a line feed at the end of each line.
//!
//! ```text
//! let text = format_script(alloc, b"proc main\nput   a 7 # seven")?;
//! // "proc main\n  put a 7 # seven\n"
//! ```
//!
//! The text says what it said before: it spells the same script, or it has the same fault on the same
//! line.
#![tactic(auto)]

mod comment;
mod fault;
mod format;
pub mod laws;
mod layout;

pub use fault::FormatFault;
pub use format::format_script;

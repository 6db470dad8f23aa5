//! Scripts: from the bytes of a text to its declarations and nested statements, or to its one fault;
//! and from a script to its canonical text.
//!
//! ```text
//! let script = read_script(alloc, b"cell a\nproc main\nput a 7\nend\n")?;
//! let main = &script.procedures()[0];
//! let text = write_script(alloc, &script)?;
//! ```
//!
//! A text that spells no script gets the first check that fails, with the lowest line on which it does
//! (`lvish_checks`).
//! The type of a script keeps what the script promises to those who run it (`lvish_syntax`).
#![tactic(auto)]

mod laws;
mod nest;
mod open;
mod read;
mod write;
mod write_line;

pub use laws::{
    a_text_has_the_words_of_its_script, a_text_spells_one_script, what_is_written_is_read,
};
pub use lvish_checks::{Fault, ScriptFault};
pub use read::read_script;
pub use write::write_script;

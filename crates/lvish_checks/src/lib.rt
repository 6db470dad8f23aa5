//! The checks of a script: what the lines of a text say, and the first fault that they have.
//!
//! ```text
//! let lines = lines_of(alloc, text)?;             // the pieces between line feeds
//! let words = words_of(alloc, line)?;             // those of a line, up to its comment
//! let said = line_of(alloc, words.as_slice())?;   // what it says: Line::Proc(name, parameters) ..
//! let version = version_of(said);                 // that of the script: Version::One ..
//! first_fault(alloc, lines, bad_number, said)?    // the first check that fails, with its lowest line
//! ```
//!
//! `lvish_script` nests the lines that pass into a script.
#![tactic(auto)]

mod check;
mod declared;
mod fault;
mod fit;
mod form;
mod kinds_by_name;
mod laws;
mod line;
mod name_set;
mod name_table;
mod open_blocks;
mod script_fault;
mod text;
mod verdict;
mod version;
mod word;

pub use check::first_bad_number;
pub use fault::Fault;
pub use form::line_of;
pub use laws::a_form_has_its_words_alone;
pub use line::Line;
pub use lvish_base::Boxed;
pub use script_fault::ScriptFault;
pub use text::{lines_of, put_words, words_of};
pub use verdict::first_fault;
pub use version::version_of;

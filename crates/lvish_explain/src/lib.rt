//! Why a script is refused, as a text for whoever wrote it: the place, one sentence, the line with
//! carets under the word, and a hint where there is one.
//!
//! ```text
//! if let Err(fault) = read_script(alloc, text) {
//!     write(explain(alloc, "walk.lvish", text, fault)?);
//! }
//! // walk.lvish:3:5: no variable of this name is declared
//! //     put fuond 1
//! //         ^^^^^
//! // hint: line 1 declares `found`, which is near
//! ```
#![tactic(auto)]

mod draft;
mod find;
mod finding;
mod forms;
mod hint;
mod known;
pub mod laws;
mod mark;
mod near;
mod place;
mod reason;
mod shown;
mod telling;
mod word;

pub use draft::Draft;
pub use mark::{Mark, mark_of};
pub use place::line_at;
pub use telling::{explain, push_place, push_quote};

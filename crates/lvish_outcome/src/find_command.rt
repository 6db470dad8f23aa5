//! The statement of a line.

use lvish_base::Boxed;
use lvish_checks::{Line, line_of, words_of};
use lvish_explain::line_at;
use lvish_syntax::Command;
use std::alloc::{AllocError, Global};

/// The statement of the line with this number, if it has one of one line.
pub fn command_at(
    alloc: Global,
    lines: &[&[u8]],
    number: usize,
) -> Result<Option<Boxed<Command>>, AllocError> {
    let words = words_of(alloc, line_at(lines, number))?;
    match line_of(alloc, words.as_slice())? {
        Line::Do(command) => Ok(Some(command)),
        _ => Ok(None),
    }
}

//! Calls of a board, in words.

use crate::desk::Desk;
use crate::seat::Seat;
use std::alloc::{AllocError, Global};

/// The lines of calls. (A function whose names are picked by its caller can't take them as they are.)
#[derive(Drop)]
pub struct Calls<'c> {
    pub lines: &'c str,
    /// The calls of another board, which is asked after this one.
    pub others: Option<&'c str>,
}

/// Writes the calls, a line each, with what the board answers to it.
///
/// A call is work that an earlier answer left, as `Stretch main`; `copy of ` and a ticket that was
/// left, which stays; `from there: ` and work that another board has left; `First`, a copy of the first
/// ticket; `Hand main/h1`, of any handler of main; or `over` or `machine`.
pub fn write_answers<D: Desk<W> + Drop, W: Drop>(
    alloc: Global,
    text: &mut String,
    calls: &str,
    seat: &mut Seat<D, W>,
) -> Result<(), AllocError> {
    for call in calls.lines() {
        text.push_str(call)?;
        text.push_str(" -> ")?;
        seat.write_answer(alloc, text, call)?;
        text.push_str("\n")?;
    }
    Ok(())
}

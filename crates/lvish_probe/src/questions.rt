//! Questions, by their first word.

use crate::answer::{ProbeAnswer, misuse};
use crate::canonical::canonical_text;
use crate::faults::numbered_faults;
use crate::host::Host;
use crate::orders::order_asked;
use crate::replayed::runs_replayed;
use crate::reports::report_of;
use lvish_cli::read_text;
use std::alloc::AllocError;

/// The answer to the question that these words ask, of the script on standard input where it is about
/// a script.
pub fn answer_to<R: Host>(rt: &R, words: &[String]) -> Result<ProbeAnswer, AllocError> {
    match words.split_first() {
        None => misuse(rt.alloc(), "no question\n"),
        Some((first, rest)) => match first.as_str() {
            "faults" => numbered_faults(rt.alloc()),
            "order" => order_asked(rt.alloc(), rest),
            _ => answer_about_input(rt, first.as_str(), rest),
        },
    }
}

/// The answer to a question about the script on standard input. What can't be read is as for want of
/// memory.
fn answer_about_input<R: Host>(
    rt: &R,
    first: &str,
    rest: &[String],
) -> Result<ProbeAnswer, AllocError> {
    match read_text(rt.alloc(), &mut rt.reader()) {
        Ok(input) => answer_about(rt, first, rest, input.as_slice()),
        Err(_) => Err(AllocError),
    }
}

/// The answer to a question about this script.
fn answer_about<R: Host>(
    rt: &R,
    first: &str,
    rest: &[String],
    script: &[u8],
) -> Result<ProbeAnswer, AllocError> {
    let alloc = rt.alloc();
    match first {
        "canonical" => canonical_text(alloc, script),
        "replayed" => runs_replayed(rt, rest, script),
        "report" => report_of(alloc, rest, script),
        _ => misuse(alloc, "no such question\n"),
    }
}

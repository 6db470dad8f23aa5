//! What words ask for.

use crate::answer::{ProbeAnswer, done};
use lvish_cli::{Order, Source, UsageFault, order_of};
use std::alloc::{AllocError, Global};

/// The order that the words give, with the path.
pub fn order_asked(alloc: Global, words: &[String]) -> Result<ProbeAnswer, AllocError> {
    match order_of(alloc, words) {
        Ok((order, source)) => Ok(done(order_line(alloc, &order, &source)?)),
        Err(fault) => no_order(alloc, &fault),
    }
}

/// The order and the path of its script, which is empty where standard input has it.
fn order_line(alloc: Global, order: &Order, source: &Source) -> Result<String, AllocError> {
    let path = match source {
        Source::File(path) => path.as_str(),
        Source::StandardInput => "",
    };
    format!(in alloc; "{order:?} of {path:?}\n")
}

/// The answer to words that are no order: of help its first line, of a refusal its first word.
pub fn no_order(alloc: Global, fault: &UsageFault) -> Result<ProbeAnswer, AllocError> {
    match fault {
        UsageFault::Help(text) => {
            let line = front(text.as_str(), '\n');
            Ok(done(format!(in alloc; "help: {line}\n")?))
        }
        UsageFault::Refused(text) => {
            let word = front(text.as_str(), ' ');
            let text = format!(in alloc; "refused: {word}\n")?;
            Ok(ProbeAnswer { status: 2, text })
        }
        UsageFault::Memory => Err(AllocError),
    }
}

/// What of a text stands before its first such character; nothing where it has none.
fn front(text: &str, end: char) -> &str {
    match text.split_once(end) {
        Some((front, _)) => front,
        None => "",
    }
}

use crate::performing::{Outcome, perform};
use crate::words::order_of;
use lvish_console::{Order, Stats, Status, tell_usage};
use lvish_pointing::Expected;
use lvish_rules::MOST_WORKERS;
use std::alloc::{AllocError, Global};
use std::convert::AsStr;
use std::io::{ErrorKind, Write};
use std::rt::Files;
use std::sync::Wait;
use std::thread::Threads;
use std::{fs, io};

/// Does what the words ask, from the file that they name to standard output. Answers the status, and
/// what is to be said of the work.
pub fn command<R: AllocGlobal + Files + Print + Threads + Wait + Sync, S: AsStr>(
    rt: &R,
    words: &[S],
) -> (Status, Option<Stats>) {
    let mut output = io::writer(rt);
    match order_of(rt.alloc(), words) {
        Ok(order) => obey(rt, &order, &mut output),
        Err(fault) => (tell_usage(&mut output, fault), None),
    }
}

/// Does what the order asks.
fn obey<T: AllocGlobal + Files + Threads + Wait + Sync, W: Write>(
    rt: &T,
    order: &Order,
    output: &mut W,
) -> (Status, Option<Stats>) {
    let outcome = match fs::open(rt, order.path.as_str()) {
        Ok(mut file) => perform(
            rt,
            order.workers.clamp(1, MOST_WORKERS),
            order.budget,
            &mut file,
            output,
        ),
        Err(error) if error.kind() == ErrorKind::OutOfMemory => Outcome::Memory,
        Err(_) => Outcome::Unreadable,
    };
    let (status, stats) = status_of(rt.alloc(), order.path.as_str(), outcome);
    (status, if order.stats { stats } else { None })
}

/// The status of what came of the order, and what it took.
fn status_of(alloc: Global, path: &str, outcome: Outcome) -> (Status, Option<Stats>) {
    match outcome {
        Outcome::Whole(stats) => (Status::Done, Some(stats)),
        Outcome::Stopped(stats) => (Status::Budget, Some(stats)),
        Outcome::Line(line, expected) => {
            let text = line_text(alloc, path, line, expected);
            (Status::refused(text), None)
        }
        Outcome::Empty => (Status::refused(empty_text(alloc, path)), None),
        Outcome::Unreadable => (Status::Unreadable, None),
        Outcome::Erring => (Status::Error, None),
        Outcome::Memory => (Status::Memory, None),
        Outcome::NoThread => (Status::NoThread, None),
        Outcome::Unwritten => (Status::Unwritten, None),
    }
}

/// Where a line is no fact, and what was expected there.
fn line_text(
    alloc: Global,
    path: &str,
    line: usize,
    expected: Expected,
) -> Result<String, AllocError> {
    match expected {
        Expected::AKind => format!(in alloc;
            "{path}:{line}: expected `address`, `copy`, `load` or `store` as the first word\n"
        ),
        Expected::TwoNames => format!(in alloc;
            "{path}:{line}: expected two names behind the first word, as in `copy p q`\n"
        ),
    }
}

/// That there is no fact, and what was expected.
fn empty_text(alloc: Global, path: &str) -> Result<String, AllocError> {
    format!(in alloc; "{path}: expected a fact, such as `address p x`, found none\n")
}

use crate::stats::{Stats, stats_text};
use crate::status::Status;
use std::alloc::Global;
use std::env::Env;
use std::io::ErrorKind;
use std::process::ExitCode;
use std::time::{Clock, Instant};
use std::{env, io};

/// The words after the program's own name; or how it ends where they can't be had.
pub fn given_words<R: AllocGlobal + Env>(rt: &R) -> Result<Vec<String>, Status> {
    match collected(rt) {
        Ok(words) => Ok(words),
        Err(error) if error.kind() == ErrorKind::OutOfMemory => Err(Status::Memory),
        Err(_) => Err(not_text(rt.alloc())),
    }
}

fn collected<R: AllocGlobal + Env>(rt: &R) -> io::Result<Vec<String>> {
    Ok(env::args(rt)?.skip(1).collect(rt.alloc())?)
}

/// Words that are refused because they aren't UTF-8.
fn not_text(alloc: Global) -> Status {
    match String::from_str(alloc, "error: a word is no UTF-8 text\n") {
        Ok(text) => Status::Usage(text),
        Err(_) => Status::Memory,
    }
}

/// Says on standard error what it took since it was begun, where that is asked for, and what the status
/// says; and gives its number. What can't be said changes no status.
pub fn end<R: AllocGlobal + Clock + Eprint>(
    rt: &R,
    begun: io::Result<Instant>,
    status: &Status,
    stats: Option<Stats>,
) -> ExitCode {
    if let (Some(stats), Ok(begun)) = (stats, begun)
        && let Ok(taken) = begun.elapsed(rt)
        && let Ok(text) = stats_text(rt.alloc(), stats, taken)
    {
        let _ = rt.eprint(text.as_str());
    }
    if let Some(text) = status.message() {
        let _ = rt.eprint(text);
    }
    ExitCode::from(status.number())
}

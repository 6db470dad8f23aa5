//! The program `lvish`: checks scripts, runs them and prints what came of it.
#![tactic(auto)]

use lvish_cli::{Ending, Hearer, Status, command_told, write_text};
use std::alloc::Global;
use std::env::VarError;
use std::io::{ErrorKind, IsTerminal};
use std::process::ExitCode;
use std::{env, io};

fn main(rt: HostRuntime) -> ExitCode {
    let mut error = rt.stderr();
    let Ending { status, explained } = match words(&rt) {
        Ok(words) => command_told(&rt, words.as_slice(), hearer(&rt, error.is_terminal())),
        Err(error) if error.kind() == ErrorKind::OutOfMemory => unexplained(Status::Memory),
        Err(_) => unexplained(not_text(rt.alloc())),
    };
    // What can't be written on standard error changes no status.
    if let Some(text) = status.message() {
        let _ = rt.eprint(text);
    }
    if let Some(explained) = explained {
        let _ = write_text(&mut error, explained.as_slice());
    }
    ExitCode::from(status.number())
}

/// Where standard error goes. Colours are for terminals, where NO_COLOR is unset or empty.
fn hearer(rt: &HostRuntime, is_terminal: bool) -> Hearer {
    if !is_terminal {
        return Hearer::Stream;
    }
    let colours = match env::var(rt, "NO_COLOR") {
        Ok(text) => text.is_empty(),
        Err(VarError::NotPresent) => true,
        Err(_) => false,
    };
    Hearer::Terminal { colours }
}

/// The status, of which its message says all.
fn unexplained(status: Status) -> Ending {
    Ending {
        status,
        explained: None,
    }
}

/// The words after the program's own name.
fn words(rt: &HostRuntime) -> io::Result<Vec<String>> {
    Ok(env::args(rt)?.skip(1).collect(rt.alloc())?)
}

/// Words that are refused because they aren't UTF-8.
fn not_text(alloc: Global) -> Status {
    match String::from_str(alloc, "error: a word is no UTF-8 text\n") {
        Ok(text) => Status::Usage(text),
        Err(_) => Status::Memory,
    }
}

//! The program `lvish_points_to`: prints who points to whom by the facts of a file.
#![tactic(auto)]

mod command;
mod performing;
mod words;

use crate::command::command;
use lvish_console::{end, given_words};
use std::process::ExitCode;
use std::time::Instant;

fn main(rt: HostRuntime) -> ExitCode {
    let begun = Instant::now(&rt);
    let (status, stats) = match given_words(&rt) {
        Ok(words) => command(&rt, words.as_slice()),
        Err(status) => (status, None),
    };
    end(&rt, begun, &status, stats)
}

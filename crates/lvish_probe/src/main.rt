//! Answers a question about a script that the program `lvish` doesn't answer.
//!
//! The words are the question, and standard input has the script. What is answered is printed, and
//! the status is that of the answer; for want of memory nothing is printed.
#![tactic(auto)]

mod answer;
mod canonical;
mod faults;
mod host;
mod likeness;
mod orders;
mod questions;
mod replayed;
mod reports;

use lvish_cli::Status;
use questions::answer_to;
use std::alloc::AllocError;
use std::process::ExitCode;
use std::{env, io};

fn main(rt: HostRuntime) -> ExitCode {
    let answer = match words(&rt) {
        Ok(words) => answer_to(&rt, words.as_slice()),
        Err(_) => Err(AllocError),
    };
    match answer {
        Ok(answer) => {
            // Who asked misses an answer that can't be written.
            let _ = rt.print(answer.text.as_str());
            ExitCode::from(answer.status)
        }
        Err(AllocError) => {
            let _ = rt.eprint("memory\n");
            ExitCode::from(Status::Memory.number())
        }
    }
}

/// The words after the program's own name. What is no text is as for want of memory.
fn words(rt: &HostRuntime) -> io::Result<Vec<String>> {
    Ok(env::args(rt)?.skip(1).collect(rt.alloc())?)
}

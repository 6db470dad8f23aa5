//! Answers what a board of a script does, call by call.
//!
//! The word is the board's budget, and standard input has the script, a line `-- calls`, and the calls,
//! a line each. Each call is printed with what is answered to it; for want of memory nothing is.
#![tactic(auto)]

mod answers;
mod board_desk;
mod calls;
mod desk;
mod naming;
mod seat;
mod text;
mod work_left;

use answers::answer_to;
use std::io::{ErrorKind, Read};
use std::process::ExitCode;
use std::{env, io};

fn main(rt: HostRuntime) -> ExitCode {
    match answered(&rt) {
        Ok((status, text)) => {
            // Who asked misses an answer that can't be written.
            let _ = rt.print(text.as_str());
            ExitCode::from(status)
        }
        Err(error) => refused(&rt, &error),
    }
}

/// The status and the text of the answer about what standard input has.
fn answered(rt: &HostRuntime) -> io::Result<(u8, String)> {
    let words: Vec<String> = env::args(rt)?.skip(1).collect(rt.alloc())?;
    let budget = match words.first() {
        Some(word) => word.parse::<u64>().unwrap_or(0),
        None => 0,
    };
    let mut input = String::new(rt.alloc());
    rt.reader().read_to_string(&mut input)?;
    Ok(answer_to(rt.alloc(), budget, input.as_str())?)
}

/// Says why there is no answer.
fn refused(rt: &HostRuntime, error: &io::Error) -> ExitCode {
    let (text, status) = if error.kind() == ErrorKind::OutOfMemory {
        ("memory\n", 7)
    } else {
        ("unreadable\n", 3)
    };
    let _ = rt.eprint(text);
    ExitCode::from(status)
}

//! How the program ends, and what it says of that.

use lvish_cli::{Status, command};
use std::alloc::AllocError;
use std::rt::Files;
use std::sync::Wait;
use std::test::*;
use std::thread::Threads;

/// The status with which the words end, and whether standard error has a message of it.
fn ending<R: AllocGlobal + Files + Input + Print + Threads + Wait + Sync>(
    rt: &R,
    line: &str,
) -> Result<(u8, bool), AllocError> {
    let words = line.split_whitespace().collect::<Vec<&str>>(rt.alloc())?;
    let status = command(rt, words.as_slice());
    Ok((status.number(), status.message().is_some()))
}

#[test]
fn commands_end_with_their_statuses(rt: HostRuntime) {
    for (line, number) in [
        ("check no/such/file", 3),
        ("run no/such/file", 3),
        ("pick no/such/file 0", 3),
        ("run", 2),
        ("run f --workers 9", 2),
        ("pick f 1000001", 2),
        ("run --help", 0),
    ] {
        let (found, has_message) = ending(&rt, line).expect(&rt, "memory");
        assert_eq!(rt; found, number, "at {line}");
        assert_eq!(rt; has_message, number != 0, "at {line}");
    }
}

#[test]
fn messages_end_their_lines(rt: HostRuntime) {
    for (status, message) in [
        (Status::Unreadable, Some("unreadable\n")),
        (Status::Memory, Some("memory\n")),
        (Status::NoThread, Some("nothread\n")),
        (Status::Stopped, Some("stopped\n")),
        (Status::Mixed, Some("mixed\n")),
        (Status::Unwritten, None),
        (Status::Blocked, None),
    ] {
        assert!(rt; status.message() == message);
    }
}

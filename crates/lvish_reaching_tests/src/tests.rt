//! Lists of edges, and what they reach from a root.

ghost use Rattle.std.specs.Prelude.{◌≤◌, ◌<◌};

use lvish_reaching::{ReachFault, reach_answer};
use std::alloc::{AllocError, Global};
use std::fmt::Write;
use std::sync::Wait;
use std::test::Fail;
use std::thread::Threads;

/// What is reached, on one line, whether it is all, and the steps; or the line at fault.
fn said<R: Threads + Wait + Sync>(
    rt: &R,
    alloc: Global,
    text: &str,
    root: &str,
    workers: usize,
    budget: u64,
) -> Result<String, AllocError>
    requires some { 0 < workers }
    requires few { workers ≤ 8 }
{
    match reach_answer(rt, alloc, text.as_bytes(), root, workers, budget) {
        Ok(reached) => {
            let mut said = String::new(alloc);
            for byte in reached.text {
                said.push(if byte == b'\n' { ' ' } else { char::from(byte) })?;
            }
            let word = if reached.is_whole { "whole" } else { "stopped" };
            write!(said, "{word} after {}", reached.steps)?;
            Ok(said)
        }
        Err(ReachFault::Alone(line)) => format!(in alloc; "line {line}"),
        Err(ReachFault::Empty) => String::from_str(alloc, "empty"),
        Err(ReachFault::Erring(_)) => String::from_str(alloc, "error"),
        Err(ReachFault::Memory | ReachFault::NoThread) => Err(AllocError),
    }
}

#[test]
fn what_edges_reach_is_found(rt: HostRuntime) -> Result<(), Fail> {
    let alloc = rt.alloc();
    let rows = [
        (
            "a b\nb c d\nd a\ne f\n",
            "a",
            1000,
            "a b c d whole after 15",
        ),
        (
            "a b\nb c d\nd a\ne f\n",
            "b",
            1000,
            "a b c d whole after 15",
        ),
        ("a b\nb c d\nd a\ne f\n", "f", 1000, "f whole after 6"),
        ("a b\nb c d\nd a\ne f\n", "z", 1000, "z whole after 6"),
        ("a b\nb c d\nd a\ne f\n", "a", 6, "a b stopped after 6"),
        ("a b\nb c d\nd a\ne f\n", "a", 0, "stopped after 0"),
        ("", "a", 1000, "empty"),
        ("# a b\n\n \t\r\n", "a", 1000, "empty"),
        (
            "# b a\n\n a\tz # z b\r\nz a a Z\n",
            "a",
            1000,
            "Z a z whole after 12",
        ),
        ("a#b c\nc # d", "a#b", 1000, "line 2"),
        ("a b\nb\na", "a", 1000, "line 2"),
        ("#\n#\na #", "a", 1000, "line 3"),
    ];
    for (text, root, budget, wanted) in rows {
        for workers in 1..9 {
            let found = said(&rt, alloc, text, root, workers, budget)?;
            assert_eq!(rt; found.as_str(), wanted);
        }
    }
    Ok(())
}

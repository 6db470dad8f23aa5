//! Lists of facts, and who points to whom by them.

ghost use Rattle.std.specs.Prelude.{◌≤◌, ◌<◌};

use lvish_pointing::{Expected, PointFault, points_answer};
use std::alloc::{AllocError, Global};
use std::sync::Wait;
use std::test::Fail;
use std::thread::Threads;

/// Who points to whom, on one line, and whether that is all; or the line at fault.
fn said<R: Threads + Wait + Sync>(
    rt: &R,
    alloc: Global,
    text: &str,
    workers: usize,
    budget: u64,
) -> Result<String, AllocError>
    requires some { 0 < workers }
    requires few { workers ≤ 8 }
{
    match points_answer(rt, alloc, text.as_bytes(), workers, budget) {
        Ok(pointed) => {
            let mut said = String::new(alloc);
            for byte in pointed.text {
                said.push(if byte == b'\n' { '/' } else { char::from(byte) })?;
            }
            said.push_str(if pointed.is_whole { "whole" } else { "stopped" })?;
            Ok(said)
        }
        Err(PointFault::Line(line, Expected::AKind)) => format!(in alloc; "line {line}: kind"),
        Err(PointFault::Line(line, Expected::TwoNames)) => format!(in alloc; "line {line}: names"),
        Err(PointFault::Empty) => String::from_str(alloc, "empty"),
        Err(PointFault::Erring(_)) => String::from_str(alloc, "error"),
        Err(PointFault::Memory | PointFault::NoThread) => Err(AllocError),
    }
}

#[test]
fn who_points_to_whom_is_found(rt: HostRuntime) -> Result<(), Fail> {
    let alloc = rt.alloc();
    let rows = [
        ("address p x\n", 1000, "p: x/whole"),
        ("address p x\n", 0, "stopped"),
        (
            "address p y\naddress p x\naddress p y\n",
            1000,
            "p: x y/whole",
        ),
        ("copy q p\naddress p x\n", 1000, "p: x/q: x/whole"),
        ("copy p q\naddress p x\n", 1000, "p: x/whole"),
        // p = &q, q = &x: what p points to points to x.
        (
            "load r p\naddress p q\naddress q x",
            1000,
            "p: q/q: x/r: x/whole",
        ),
        (
            "store p r\naddress p q\naddress r x",
            1000,
            "p: q/q: x/r: x/whole",
        ),
        // A cycle, in which both come to point to all.
        (
            "copy a b\ncopy b a\naddress a x\naddress b y",
            1000,
            "a: x y/b: x y/whole",
        ),
        // p points to itself, and so does what is stored through it.
        (
            "address p p\nstore p q\naddress q x",
            1000,
            "p: p x/q: x/x: x/whole",
        ),
        ("load x y\nstore y x\ncopy x y", 1000, "whole"),
        ("", 1000, "empty"),
        ("# address p x\n\n \t\r\n", 1000, "empty"),
        ("address p x # copy\n#\nmove q p\n", 1000, "line 3: kind"),
        ("address p\naddress p x", 1000, "line 1: names"),
        ("address p x\ncopy p q r", 1000, "line 2: names"),
        ("copy", 1000, "line 1: names"),
        ("Copy p q", 1000, "line 1: kind"),
    ];
    for (text, budget, wanted) in rows {
        for workers in 1..9 {
            let found = said(&rt, alloc, text, workers, budget)?;
            assert_eq!(rt; found.as_str(), wanted);
        }
    }
    Ok(())
}

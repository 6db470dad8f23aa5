ghost use Rattle.std.specs.Prelude.{◌≡◌, ◌<◌, ◌≤◌};
ghost use Rattle.lvish_points_to.specs.Performs.{Performs, IsWritten, outcome_of};

use lvish_console::{ReadFault, Stats, read_input, write_text};
use lvish_pointing::{Expected, PointFault, Pointed, points_answer};
use lvish_rules::MOST_WORKERS;
use std::io::{Read, Write};
use std::sync::Wait;
use std::thread::Threads;

/// What came of an order.
#[derive(Clone, Copy)]
pub enum Outcome {
    /// All who points to whom was written.
    Whole(Stats),
    /// The budget was used up, and what had been found by then was written.
    Stopped(Stats),
    /// The line of this number lacks this.
    Line(usize, Expected),
    /// The reader failed.
    Unreadable,
    /// No line states a fact.
    Empty,
    /// The analysis is in error.
    Erring,
    /// A growth was refused.
    Memory,
    /// A thread couldn't be started.
    NoThread,
    /// The writer failed.
    Unwritten,
}

/// What comes of an input without an answer.
fn refusal(fault: PointFault) -> Outcome
    ensures { result ≡ outcome_of fault }
{
    match fault {
        PointFault::Line(line, expected) => Outcome::Line(line, expected),
        PointFault::Empty => Outcome::Empty,
        PointFault::Erring(_) => Outcome::Erring,
        PointFault::Memory => Outcome::Memory,
        PointFault::NoThread => Outcome::NoThread,
    }
}

/// Reads facts, and writes who points to whom by them, and nothing else.
pub fn perform<H: AllocGlobal + Threads + Wait + Sync, R: Read, W: Write>(
    rt: &H,
    workers: usize,
    budget: u64,
    reader: &mut R,
    writer: &mut W,
) -> Outcome
    requires some { 0 < workers }
    requires few { workers ≤ MOST_WORKERS }
    ensures { Performs (R.remaining reader.old) (W.contents writer.old) (W.contents writer.new) result }
{
    let alloc = rt.alloc();
    let input = match read_input(alloc, reader) {
        Ok(input) => input,
        Err(ReadFault::Memory) => return Outcome::Memory,
        Err(ReadFault::Unreadable) => return Outcome::Unreadable,
    };
    match points_answer(rt, alloc, input.as_slice(), workers, budget) {
        Ok(pointed) => write_pointed(writer, &pointed),
        Err(fault) => refusal(fault),
    }
}

/// Writes the answer.
fn write_pointed<W: Write>(writer: &mut W, pointed: &Pointed) -> Outcome
    ensures { IsWritten (W.contents writer.old) (W.contents writer.new) pointed.now.is_whole pointed.now.text.items pointed.now.count result }
{
    let stats = Stats {
        steps: pointed.steps,
        facts: pointed.count,
    };
    if write_text(writer, pointed.text.as_slice()).is_err() {
        return Outcome::Unwritten;
    }
    if pointed.is_whole {
        Outcome::Whole(stats)
    } else {
        Outcome::Stopped(stats)
    }
}

ghost use Rattle.std.specs.Prelude.{◌≡◌, ◌<◌, ◌≤◌};
ghost use Rattle.lvish_reach.specs.Performs.{Performs, IsWritten, outcome_of};

use lvish_console::{ReadFault, Stats, read_input, write_text};
use lvish_reaching::{ReachFault, Reached, reach_answer};
use lvish_rules::MOST_WORKERS;
use std::io::{Read, Write};
use std::sync::Wait;
use std::thread::Threads;

/// What came of an order.
#[derive(Clone, Copy)]
pub enum Outcome {
    /// All that can be reached was written.
    Whole(Stats),
    /// The budget was used up, and what had been found by then was written.
    Stopped(Stats),
    /// The line of this number has one name alone.
    Alone(usize),
    /// The reader failed.
    Unreadable,
    /// No line has a name.
    Empty,
    /// The analysis is in error.
    Erring,
    /// A growth was refused.
    Memory,
    /// A thread couldn't be started.
    NoThread,
    /// The writer failed.
    Unwritten,
}

/// What comes of an input without an answer.
fn refusal(fault: ReachFault) -> Outcome
    ensures { result ≡ outcome_of fault }
{
    match fault {
        ReachFault::Alone(line) => Outcome::Alone(line),
        ReachFault::Empty => Outcome::Empty,
        ReachFault::Erring(_) => Outcome::Erring,
        ReachFault::Memory => Outcome::Memory,
        ReachFault::NoThread => Outcome::NoThread,
    }
}

/// Reads edges, and writes which nodes they reach from the root, and nothing else.
pub fn perform<H: AllocGlobal + Threads + Wait + Sync, R: Read, W: Write>(
    rt: &H,
    root: &str,
    workers: usize,
    budget: u64,
    reader: &mut R,
    writer: &mut W,
) -> Outcome
    requires some { 0 < workers }
    requires few { workers ≤ MOST_WORKERS }
    ensures { Performs (R.remaining reader.old) root.now (W.contents writer.old) (W.contents writer.new) result }
{
    let alloc = rt.alloc();
    let input = match read_input(alloc, reader) {
        Ok(input) => input,
        Err(ReadFault::Memory) => return Outcome::Memory,
        Err(ReadFault::Unreadable) => return Outcome::Unreadable,
    };
    match reach_answer(rt, alloc, input.as_slice(), root, workers, budget) {
        Ok(reached) => write_reached(writer, &reached),
        Err(fault) => refusal(fault),
    }
}

/// Writes what is reached.
fn write_reached<W: Write>(writer: &mut W, reached: &Reached) -> Outcome
    ensures { IsWritten (W.contents writer.old) (W.contents writer.new) reached.now.is_whole reached.now.text.items reached.now.count result }
{
    let stats = Stats {
        steps: reached.steps,
        facts: reached.count,
    };
    if write_text(writer, reached.text.as_slice()).is_err() {
        return Outcome::Unwritten;
    }
    if reached.is_whole {
        Outcome::Whole(stats)
    } else {
        Outcome::Stopped(stats)
    }
}

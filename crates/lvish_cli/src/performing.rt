ghost use Rattle.std.specs.Prelude.{◌≡◌};
ghost use Rattle.lvish_cli.specs.Orders.{IsInBounds};
ghost use Rattle.lvish_cli.specs.Performs.{Performs};
ghost use Rattle.lvish_cli.specs.Statuses.{fault_status};
ghost use Rattle.lvish_cli.specs.Streams.{GivesUpTo};

use crate::answering::answer_to;
use crate::order::Order;
use crate::output::Output;
use crate::reading::{MOST_READ, ReadFault, read_text};
use crate::status::Status;
use crate::writing::write_answer;
use lvish_compound::{Any, Event};
use lvish_run::{Report, RunFault, RunMeaning};
use lvish_syntax::Script;
use std::alloc::Global;
use std::io::{Error, Read, Write};
use std::sync::Wait;
use std::thread::Threads;

/// What is left of an order that was done, for what standard error says of it.
pub(crate) enum Left {
    /// The script couldn't be read, and the system said this.
    Unread(Error),
    /// Want of memory, or a run by workers that left no report.
    Nothing,
    /// The text that was read; where it spells one that was asked for, its script; and the report of its
    /// run, if there was one.
    Answered {
        input: Vec<u8>,
        script: Option<Script>,
        report: Option<Report<Any, Event>>,
    },
}

// Written out, so that it is proved once, and not at each exit of a function that owns one.
impl Drop for Left {
    fn drop(self) {
        match self {
            Left::Unread(_) => {}
            Left::Nothing => {}
            Left::Answered {
                input: _,
                script: _,
                report: _,
            } => {}
        }
    }
}

/// Reads a script, does what the order asks, and writes the answer and nothing else.
/// At most `MOST_READ` bytes are read; nothing is written where the script can't be read,
/// for want of memory, or where the workers gave no report.
pub fn perform<T: Threads + Wait + Sync, R: Read, W: Write>(
    rt: &T,
    alloc: Global,
    order: &Order,
    reader: &mut R,
    writer: &mut W,
) -> Status
    requires { IsInBounds order.now }
    ensures performs { Performs ⟦<Script as RunMeaning>⟧ order.now
        (R.remaining reader.old) (W.contents writer.old) (W.contents writer.new) result }
    ensures reads { GivesUpTo MOST_READ (R.remaining reader.old) (R.remaining reader.new) }
{
    let (status, _left) = performed(rt, alloc, order, reader, writer);
    status
}

/// Does what [`perform`] does, and answers as well what is left of it: a caller that goes on drops
/// that, and a program that ends needn't.
pub(crate) fn performed<T: Threads + Wait + Sync, R: Read, W: Write>(
    rt: &T,
    alloc: Global,
    order: &Order,
    reader: &mut R,
    writer: &mut W,
) -> (Status, Left)
    requires { IsInBounds order.now }
    ensures performs { Performs ⟦<Script as RunMeaning>⟧ order.now
        (R.remaining reader.old) (W.contents writer.old) (W.contents writer.new) result.0 }
    ensures reads { GivesUpTo MOST_READ (R.remaining reader.old) (R.remaining reader.new) }
{
    let input = match read_text(alloc, reader) {
        Ok(input) => input,
        Err(ReadFault::Unreadable(error)) => return (Status::Unreadable, Left::Unread(error)),
        Err(ReadFault::Memory) => return (Status::Memory, Left::Nothing),
    };
    let answer = match answer_to(rt, alloc, order, input.as_slice()) {
        Ok(answer) => answer,
        Err(fault) => return (unanswered(fault), Left::Nothing),
    };
    let Output {
        status,
        text,
        script,
        report,
    } = answer;
    let left = Left::Answered {
        input,
        script,
        report,
    };
    (write_answer(writer, text.as_slice(), status), left)
}

/// The status where a run met the fault.
fn unanswered(fault: RunFault) -> Status
    ensures { result ≡ fault_status fault }
{
    Status::from(fault)
}

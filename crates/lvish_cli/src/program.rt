ghost use Rattle.std.specs.Prelude.{◌≡◌, ◌≢◌, [], None};
ghost use Rattle.lvish_cli.specs.Commands.{IsCommanded, IsTold, given_at};
ghost use Rattle.lvish_cli.specs.Orders.{IsInBounds};
ghost use Rattle.lvish_cli.specs.Performs.{Performs};
ghost use Rattle.lvish_cli.specs.Statuses.{status_number};

use crate::explaining::{told_of, unreadable};
use crate::order::{Order, Source, UsageFault};
use crate::performing::performed;
use crate::status::Status;
use crate::telling::{Hearer, Telling};
use crate::words::{Words, asked_by};
use crate::writing::write_answer;
use lvish_run::RunMeaning;
use lvish_syntax::Script;
use std::convert::AsStr;
use std::io::{ErrorKind, Read, Write};
use std::rt::Files;
use std::sync::Wait;
use std::thread::Threads;
use std::{fs, io, mem};

/// How words ended: the status, and what standard error says beside its message.
#[derive(Drop)]
pub struct Ending {
    pub status: Status,
    pub explained: Option<Vec<u8>>,
}

/// Does what the words ask, from the file that they name, or from standard input, to standard output.
/// Nothing goes to standard error: that is the status's message.
///
/// It is the last thing that a program does: the memory of a run's report is left to the system. A
/// caller that goes on asks [`order_of`](crate::order_of) and [`perform`](crate::perform), which gives
/// it back.
pub fn command<R: AllocGlobal + Files + Input + Print + Threads + Wait + Sync, S: AsStr>(
    rt: &R,
    words: &[S],
) -> Status
    // Having no words is no misuse.
    ensures { words.now ≡ [] → status_number result ≢ 2 }
{
    command_with(rt, words, &mut rt.reader(), &mut io::writer(rt))
}

/// Does what [`command`] does, and answers as well what standard error says of it: where a terminal
/// shows that, and the words don't say otherwise, or where they ask for it.
pub fn command_told<R: AllocGlobal + Files + Input + Print + Threads + Wait + Sync, S: AsStr>(
    rt: &R,
    words: &[S],
    hearer: Hearer,
) -> Ending {
    commanded(rt, words, hearer, &mut rt.reader(), &mut io::writer(rt))
}

/// Does what [`command`] does, with any reader as standard input and any writer as standard output.
/// Files are the system's, and what is in them isn't known.
pub fn command_with<T: AllocGlobal + Files + Threads + Wait + Sync, S: AsStr, R: Read, W: Write>(
    rt: &T,
    words: &[S],
    input: &mut R,
    output: &mut W,
) -> Status
    ensures commanded { IsCommanded (R.remaining input.old) (W.contents output.old) (W.contents output.new)
        ⟦<Script as RunMeaning>⟧ words.now result }
    // Having no words is no misuse.
    ensures usage { words.now ≡ [] → status_number result ≢ 2 }
{
    let Ending {
        status,
        explained: _,
    } = commanded(rt, words, Hearer::Stream, input, output);
    status
}

/// Does what [`command_told`] does, with any reader and any writer.
fn commanded<T: AllocGlobal + Files + Threads + Wait + Sync, S: AsStr, R: Read, W: Write>(
    rt: &T,
    words: &[S],
    hearer: Hearer,
    input: &mut R,
    output: &mut W,
) -> Ending
    ensures commanded { IsCommanded (R.remaining input.old) (W.contents output.old) (W.contents output.new)
        ⟦<Script as RunMeaning>⟧ words.now result.status }
    ensures usage { words.now ≡ [] → status_number result.status ≢ 2 }
{
    match asked_by(rt.alloc(), words) {
        Ok(Words { order, source, why }) => {
            // (of a text that is formatted a fault says nothing)
            let why = if order.asks_format() {
                Some(false)
            } else {
                why
            };
            let telling = Telling::of(why, hearer);
            perform_from(rt, &order, &source, telling, input, output)
        }
        Err(fault) => Ending {
            status: tell(output, fault),
            explained: None,
        },
    }
}

/// Writes the help that was asked for. Of words that are refused the status tells.
fn tell<W: Write>(output: &mut W, fault: UsageFault) -> Status
    ensures { IsTold (W.contents output.old) (W.contents output.new) fault result }
{
    match fault {
        UsageFault::Help(text) => write_answer(output, text.as_bytes(), Status::Done),
        UsageFault::Refused(text) => Status::Usage(text),
        UsageFault::Memory => Status::Memory,
    }
}

/// Does what the order asks of the script there.
fn perform_from<T: AllocGlobal + Files + Threads + Wait + Sync, R: Read, W: Write>(
    rt: &T,
    order: &Order,
    source: &Source,
    telling: Telling,
    input: &mut R,
    output: &mut W,
) -> Ending
    requires { IsInBounds order.now }
    ensures { Performs ⟦<Script as RunMeaning>⟧ order.now (given_at (R.remaining input.old) source.now)
        (W.contents output.old) (W.contents output.new) result.status }
{
    match source {
        Source::StandardInput => perform_last(rt, order, "-", telling, input, output),
        Source::File(path) => perform_file(rt, order, path.as_str(), telling, output),
    }
}

/// Does what the order asks of the file at the path.
fn perform_file<T: AllocGlobal + Files + Threads + Wait + Sync, W: Write>(
    rt: &T,
    order: &Order,
    path: &str,
    telling: Telling,
    output: &mut W,
) -> Ending
    requires { IsInBounds order.now }
    ensures { Performs ⟦<Script as RunMeaning>⟧ order.now None
        (W.contents output.old) (W.contents output.new) result.status }
{
    match fs::open(rt, path) {
        Ok(mut file) => perform_last(rt, order, path, telling, &mut file, output),
        Err(error) if error.kind() == ErrorKind::OutOfMemory => Ending {
            status: Status::Memory,
            explained: None,
        },
        Err(error) => Ending {
            status: Status::Unreadable,
            explained: unreadable(rt.alloc(), path, &error),
        },
    }
}

/// Does what the order asks, as the last thing that the program does. A run's report is left to the
/// system, which takes all memory back at once when a program ends: to give it back block by block
/// takes a twentieth of a run with many tasks.
fn perform_last<T: AllocGlobal + Threads + Wait + Sync, R: Read, W: Write>(
    rt: &T,
    order: &Order,
    path: &str,
    telling: Telling,
    reader: &mut R,
    writer: &mut W,
) -> Ending
    requires { IsInBounds order.now }
    ensures { Performs ⟦<Script as RunMeaning>⟧ order.now (R.remaining reader.old)
        (W.contents writer.old) (W.contents writer.new) result.status }
{
    let (status, left) = performed(rt, rt.alloc(), order, reader, writer);
    let explained = told_of(rt.alloc(), path, &left, telling);
    mem::forget(left);
    Ending { status, explained }
}

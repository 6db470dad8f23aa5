//! Readers and writers that fail, or that give and take little at a time.

ghost use Rattle.std.specs.Prelude.{◌<◌, ◌≤◌};

use super::fakes::{LongReader, Refusal, ShortWriter, SlowReader};
use super::{COUNTING, willing};
use lvish_cli::{CheckOrder, Order, PickOrder, Picks, RunOrder, Status, perform};
use std::alloc::{AllocError, Global};
use std::io::{ErrorKind, Read};
use std::sync::Wait;
use std::test::*;
use std::thread::Threads;

/// A text that is no script.
const UNENDED: &[u8] = b"cell a\nproc main\nput a 1\n";

/// A run that meets an error.
const CONFLICT: &[u8] = b"cell a\nproc main\nput a 1\nput a 2\nend\n";

/// A run that ends with a blocked task.
const BLOCKED: &[u8] = b"cell a\nproc main\nget x a any\nend\n";

const SCRIPTS: [&[u8]; 4] = [COUNTING, UNENDED, CONFLICT, BLOCKED];

/// What is asked for.
#[derive(Clone, Copy, Debug)]
enum StreamsAsked {
    Check,
    /// A run by one worker.
    Alone,
    /// A run by two.
    Both,
    /// A run by no picks.
    Pick,
}

const ASKED: [StreamsAsked; 4] = [
    StreamsAsked::Check,
    StreamsAsked::Alone,
    StreamsAsked::Both,
    StreamsAsked::Pick,
];

/// How this ends.
fn end<T: Threads + Wait + Sync, R: Read>(
    rt: &T,
    alloc: Global,
    asked: StreamsAsked,
    reader: &mut R,
    writer: &mut ShortWriter,
) -> Status {
    match asked {
        StreamsAsked::Check => {
            let order = Order::Check(CheckOrder {
                ends: true,
                alike: true,
                budget: 100,
                json: false,
            });
            perform(rt, alloc, &order, reader, writer)
        }
        StreamsAsked::Alone => run(rt, alloc, 1, reader, writer),
        StreamsAsked::Both => run(rt, alloc, 2, reader, writer),
        StreamsAsked::Pick => pick(rt, alloc, reader, writer),
    }
}

fn run<T: Threads + Wait + Sync, R: Read>(
    rt: &T,
    alloc: Global,
    workers: usize,
    reader: &mut R,
    writer: &mut ShortWriter,
) -> Status
    requires some { 0 < workers }
    requires few { workers ≤ 8 }
{
    let order = Order::Run(RunOrder {
        workers,
        budget: 100_000,
        all: true,
        trace: false,
        picks: false,
        json: false,
    });
    perform(rt, alloc, &order, reader, writer)
}

fn pick<T: Threads + Wait + Sync, R: Read>(
    rt: &T,
    alloc: Global,
    reader: &mut R,
    writer: &mut ShortWriter,
) -> Status {
    let order = Order::Pick(PickOrder {
        picks: Picks::from(Vec::new(alloc)),
        budget: 100_000,
        all: false,
        json: false,
    });
    perform(rt, alloc, &order, reader, writer)
}

/// How this ends where the reader gives this many bytes, `step` of them a read, and fails.
fn read_end<T: Threads + Wait + Sync>(
    rt: &T,
    alloc: Global,
    asked: StreamsAsked,
    (count, step): (usize, usize),
    kind: ErrorKind,
) -> Result<String, AllocError> {
    let mut reader = SlowReader {
        bytes: COUNTING.get(..count).unwrap_or(COUNTING),
        step,
        fault: Some(kind),
        faults: 0,
    };
    let mut writer = willing();
    let status = end(rt, alloc, asked, &mut reader, &mut writer);
    let (faults, writes) = (reader.faults, writer.writes);
    format!(in alloc; "{status:?}, failed reads {faults}, writes {writes}")
}

/// After each number of bytes.
#[test]
fn a_read_that_fails_is_not_tried_again(rt: HostRuntime) {
    for count in 0..COUNTING.len() + 1 {
        for step in [1, 5, 512] {
            for asked in ASKED {
                let kind = if count % 2 == 0 {
                    ErrorKind::Other
                } else {
                    ErrorKind::Interrupted
                };
                let end = read_end(&rt, rt.alloc(), asked, (count, step), kind).expect(
                    &rt, "memory",
                );
                assert_eq!(rt;
                    end.as_str(),
                    "Unreadable, failed reads 1, writes 0",
                    "at {count} by {step}, {asked:?}"
                );
            }
        }
    }
}

/// How this ends where the reader gives the script, `step` bytes a read, and ends.
fn slow_end<T: Threads + Wait + Sync>(
    rt: &T,
    alloc: Global,
    asked: StreamsAsked,
    script: &[u8],
    step: usize,
    writer: &mut ShortWriter,
) -> Status {
    let mut reader = SlowReader {
        bytes: script,
        step,
        fault: None,
        faults: 0,
    };
    end(rt, alloc, asked, &mut reader, writer)
}

/// Whether the writer's text and status are those with a reader that gives all at once.
fn is_the_same<T: Threads + Wait + Sync>(
    rt: &T,
    alloc: Global,
    asked: StreamsAsked,
    script: &[u8],
    step: usize,
) -> bool {
    let mut whole = willing();
    let status = slow_end(rt, alloc, asked, script, script.len(), &mut whole);
    let mut writer = willing();
    slow_end(rt, alloc, asked, script, step, &mut writer) == status
        && status != Status::Unreadable
        && writer.text() == whole.text()
}

/// One byte at a time, and each other number of them.
#[test]
fn a_slow_reader_changes_nothing(rt: HostRuntime) {
    for script in SCRIPTS {
        for step in 1..script.len() {
            for asked in ASKED {
                assert!(rt;
                    is_the_same(&rt, rt.alloc(), asked, script, step),
                    "by {step}, {asked:?}"
                );
            }
        }
    }
}

/// Whether the run whose writer refuses this write ends as it has to: there is no further write, and
/// what was written is a front of the whole.
fn stops_at<T: Threads + Wait + Sync>(
    rt: &T,
    alloc: Global,
    asked: StreamsAsked,
    script: &[u8],
    writer: &mut ShortWriter,
    whole: &[u8],
) -> bool {
    let status = slow_end(rt, alloc, asked, script, 512, writer);
    status == Status::Unwritten
        && writer.writes == writer.refuses
        && whole.starts_with(writer.text())
        && writer.text().len() < whole.len()
}

/// At each write, for writers that take one byte at a time, a few, or all.
#[test]
fn no_write_follows_one_that_fails(rt: HostRuntime) {
    for script in SCRIPTS {
        for asked in ASKED {
            for step in [1, 3, 512] {
                let mut whole = ShortWriter::new(step, 0, Refusal::Fails);
                let status = slow_end(&rt, rt.alloc(), asked, script, 512, &mut whole);
                assert!(rt;
                    status != Status::Unwritten && whole.writes > 0,
                    "{asked:?}"
                );
                for number in 1..whole.writes.saturating_add(1) {
                    for refusal in [Refusal::Fails, Refusal::TakesNothing] {
                        let mut writer = ShortWriter::new(step, number, refusal);
                        assert!(rt;
                            stops_at(&rt, rt.alloc(), asked, script, &mut writer, whole.text()),
                            "at {number} by {step}, {asked:?} {refusal:?}"
                        );
                    }
                }
            }
        }
    }
}

/// A text that was taken but can't be kept is no report.
#[test]
fn a_flush_that_fails_is_not_done(rt: HostRuntime) {
    for script in SCRIPTS {
        for asked in ASKED {
            let mut writer = ShortWriter::new(3, 0, Refusal::FailsAtFlush);
            let status = slow_end(&rt, rt.alloc(), asked, script, 512, &mut writer);
            assert_eq!(rt; status, Status::Unwritten, "{asked:?}");
        }
    }
}

/// How this ends where the reader has more than a script may have, and how many bytes it gave.
fn long_end<T: Threads + Wait + Sync>(
    rt: &T,
    alloc: Global,
    asked: StreamsAsked,
    step: usize,
) -> (Status, usize) {
    let mut reader = LongReader { given: 0, step };
    let mut writer = willing();
    let status = end(rt, alloc, asked, &mut reader, &mut writer);
    (status, reader.given)
}

#[test]
fn at_most_one_byte_more_than_a_script_is_read(rt: HostRuntime) {
    for asked in ASKED {
        for step in [1, 1_000, 65_536, 100_000] {
            let end = long_end(&rt, rt.alloc(), asked, step);
            assert_eq!(rt; end, (Status::Refused, 65_537), "by {step}, {asked:?}");
        }
    }
}

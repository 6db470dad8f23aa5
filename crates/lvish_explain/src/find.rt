//! What is wrong with a line that has a fault.

mod block;
mod form;
mod kind;
mod name;
mod role;
mod whole;
mod word;

ghost use Rattle.std.specs.Prelude.{◌≡◌, IfOk};
ghost use Rattle.lvish_explain.specs.Reasons.{fault_of};

use crate::finding::Finding;
use crate::hint::Hint;
use crate::reason::Reason;
use block::{open_block, too_many};
use form::bad_line;
use kind::{compatible, wrong_kind};
use lvish_checks::{Fault, ScriptFault};
use name::{double_name, unknown_name, wrong_count};
use std::alloc::{AllocError, Global};
use whole::no_main;
use word::bad_number;

/// What is wrong on a line with these words, which has this fault.
pub fn find<'a>(
    alloc: Global,
    lines: &[&'a [u8]],
    words: &[&'a [u8]],
    fault: ScriptFault,
) -> Result<Finding<'a>, AllocError>
    ensures { IfOk result (λ found. fault_of found.reason ≡ fault.fault) }
{
    match fault.fault {
        Fault::TooLong => Ok(plain(Reason::TooLong)),
        Fault::NotAscii => Ok(plain(Reason::NotAscii)),
        Fault::BadLine => bad_line(alloc, lines, words, fault.line),
        Fault::BadNumber => Ok(bad_number(words)),
        Fault::DoubleName => double_name(alloc, lines, words, fault.line),
        Fault::UnknownName => unknown_name(alloc, lines, words, fault.line),
        Fault::WrongKind => wrong_kind(alloc, lines, words),
        Fault::WrongCount => wrong_count(alloc, lines, words),
        Fault::OpenBlock => open_block(alloc, lines, words, fault.line),
        Fault::Compatible => Ok(compatible(words)),
        Fault::NoMain => no_main(alloc, lines),
        Fault::TooMany => Ok(too_many(words)),
        Fault::Memory => Ok(plain(Reason::Memory)),
    }
}

/// A reason without a hint, at the first word.
fn plain<'a>(reason: Reason) -> Finding<'a>
    ensures { result.reason ≡ reason }
{
    Finding {
        reason,
        word: 0,
        hint: Hint::Nothing,
    }
}

ghost use Rattle.std.specs.Prelude.{◌≡◌, ℕ, List, length, map, nat_lt, false, IfOk};
ghost use Rattle.std.specs.List.{list_any};
ghost use Rattle.lvish_syntax.specs.Words.{Word};
ghost use Rattle.lvish_checks.specs.Form.{is_bad_number};
ghost use Rattle.lvish_checks.specs.Checks.{on_line, fails_beside, IsFirstOn, IsVerdict, IsVerdictBy};

use crate::check::{
    first_bad_line, first_compatible, first_double_name, first_no_main, first_not_ascii,
    first_open_block, first_too_many, first_unknown_name, first_wrong_count, first_wrong_kind,
};
use crate::fault::Fault;
use crate::line::Line;
use crate::script_fault::ScriptFault;
use lvish_syntax::MOST_BYTES;
use std::alloc::{AllocError, Global};

/// The checks of a text that isn't too long, in their order.
const CHECKS: [Fault; 11] = [
    Fault::NotAscii,
    Fault::BadLine,
    Fault::BadNumber,
    Fault::DoubleName,
    Fault::UnknownName,
    Fault::WrongKind,
    Fault::WrongCount,
    Fault::OpenBlock,
    Fault::Compatible,
    Fault::NoMain,
    Fault::TooMany,
];

/// The lowest line on which a check fails of a text that isn't too long, if there is one.
fn first_line(
    alloc: Global,
    fault: Fault,
    lines: &[&[u8]],
    bad_number: Option<usize>,
    said: &[Line],
) -> Result<Option<usize>, AllocError>
    ensures { IfOk result (λ found. IsFirstOn (fails_beside (map (λ w. w.now) lines.now) said.now bad_number fault) found) }
{
    match fault {
        Fault::NotAscii => Ok(first_not_ascii(lines)),
        Fault::BadLine => Ok(first_bad_line(said)),
        Fault::BadNumber => Ok(bad_number),
        Fault::DoubleName => first_double_name(alloc, said),
        Fault::UnknownName => first_unknown_name(alloc, said),
        Fault::WrongKind => first_wrong_kind(alloc, said),
        Fault::WrongCount => first_wrong_count(alloc, said),
        Fault::OpenBlock => first_open_block(alloc, said),
        Fault::Compatible => first_compatible(alloc, said),
        Fault::NoMain => Ok(first_no_main(said)),
        Fault::TooMany => first_too_many(alloc, said),
        Fault::TooLong | Fault::Memory => Ok(None),
    }
}

/// The first check that fails of a text that isn't too long, and the lowest line on which it does.
/// Of the words it is given only the first line with a number word that is no number, and takes it at
/// its word.
pub fn first_fault(
    alloc: Global,
    lines: &[&[u8]],
    bad_number: Option<usize>,
    said: &[Line],
) -> Result<Option<ScriptFault>, AllocError>
    ensures found { IfOk result (IsVerdictBy (fails_beside (map (λ w. w.now) lines.now) said.now bad_number)) }
    // So it is the verdict on each text with these lines that has its first bad number there.
    ensures verdict { IfOk result (λ found. (bytes : List ℕ) (words : List (List Word)) → nat_lt MOST_BYTES (length bytes) ≡ false → IsFirstOn (on_line (λ k ws. list_any is_bad_number ws) words) bad_number → IsVerdict (record { bytes = bytes; lines = map (λ w. w.now) lines.now; words = words; said = said.now }) found) }
{
    for fault in CHECKS.as_slice() {
        if let Some(line) = first_line(alloc, *fault, lines, bad_number, said)? {
            return Ok(Some(ScriptFault {
                fault: *fault,
                line,
            }));
        }
    }
    Ok(None)
}

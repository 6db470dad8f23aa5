//! Lines that stand inside or outside a procedure where they may not, blocks that are left open, and
//! too many of what a script may have.

ghost use Rattle.std.specs.Prelude.{◌≡◌, IfSome, IfOk};
ghost use Rattle.lvish_explain.specs.Reasons.{fault_of};
ghost use Rattle.lvish_checks.specs.declared.fault.Fault.TheVariants.{OpenBlock, TooMany};

use crate::finding::Finding;
use crate::hint::Hint;
use crate::known::{Space, space_of};
use crate::place::lines_above;
use crate::reason::Reason;
use crate::word::is;
use lvish_checks::put_words;
use std::alloc::{AllocError, Global};

/// A block that is open, by the line that opened it.
#[derive(Clone, Copy)]
struct OpenedAt {
    line: usize,
    takes_else: bool,
}

/// Whether a line with this first word opens a block where these are open, and then whether that takes an
/// `else`.
fn opens(open: &[OpenedAt], first: &[u8]) -> Option<bool> {
    if is(first, b"proc") {
        return Some(false);
    }
    if open.is_empty() {
        return None;
    }
    if is(first, b"if") {
        Some(true)
    } else if is(first, b"while") {
        Some(false)
    } else {
        None
    }
}

/// What is open after a line with this first word. A match on words would be proved byte by byte.
fn step(open: &mut Vec<OpenedAt>, first: &[u8], line: usize) -> Result<(), AllocError> {
    if is(first, b"end") {
        open.pop();
    } else if is(first, b"else") {
        if let Some(block) = open.last_mut() {
            block.takes_else = false;
        }
    } else if let Some(takes_else) = opens(open.as_slice(), first) {
        open.push(OpenedAt { line, takes_else })?;
    }
    Ok(())
}

/// What is open after these lines, the innermost last.
fn open_after(alloc: Global, lines: &[&[u8]]) -> Result<Vec<OpenedAt>, AllocError> {
    let mut open = Vec::new(alloc);
    let mut words = Vec::new(alloc);
    for k in 0..lines.len() {
        put_words(&mut words, lines[k])?;
        if let [first, ..] = words.as_slice() {
            step(&mut open, first, k + 1)?;
        }
    }
    Ok(open)
}

/// Why a line with this first word can't stand where this block is the innermost open one.
fn misplaced(first: &[u8], innermost: Option<&OpenedAt>) -> Option<Reason>
    ensures { IfSome result (λ reason. fault_of reason ≡ OpenBlock) }
{
    let is_procedure = is(first, b"proc");
    match innermost {
        None if is_procedure => None,
        None => Some(Reason::OutsideProcedure),
        Some(_) if is_procedure => Some(Reason::WithinProcedure),
        Some(block) if is(first, b"else") && !block.takes_else => Some(Reason::NoIf),
        Some(_) => None,
    }
}

/// The innermost open block.
fn open_hint<'a>(innermost: Option<&OpenedAt>) -> Hint<'a> {
    match innermost {
        Some(block) => Hint::Line(block.line, "opens the innermost block that is open"),
        None => Hint::Nothing,
    }
}

/// Why a line can't stand where it stands, or what is open at the end.
pub fn open_block<'a>(
    alloc: Global,
    lines: &[&'a [u8]],
    words: &[&'a [u8]],
    number: usize,
) -> Result<Finding<'a>, AllocError>
    ensures { IfOk result (λ found. fault_of found.reason ≡ OpenBlock) }
{
    if let [first, ..] = words {
        let open = open_after(alloc, lines_above(lines, number))?;
        let innermost = open.last();
        if let Some(reason) = misplaced(first, innermost) {
            return Ok(Finding {
                reason,
                word: 0,
                hint: open_hint(innermost),
            });
        }
    }
    let open = open_after(alloc, lines)?;
    Ok(Finding {
        reason: Reason::LeftOpen,
        word: 0,
        hint: open_hint(open.last()),
    })
}

/// What there is too much of, by the first word of the line.
pub fn too_many<'a>(words: &[&[u8]]) -> Finding<'a>
    ensures { fault_of result.reason ≡ TooMany }
{
    let space = match words {
        [first, ..] => space_of(first),
        [] => None,
    };
    let reason = match space {
        Some(Space::Variable) => Reason::TooManyVariables,
        Some(Space::Pool) => Reason::TooManyPools,
        Some(Space::Procedure) => Reason::TooManyProcedures,
        _ => Reason::TooDeep,
    };
    Finding {
        reason,
        word: 0,
        hint: Hint::Nothing,
    }
}

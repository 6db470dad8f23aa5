//! Statements that don't fit the kind of their variable.

ghost use Rattle.std.specs.Prelude.{◌≡◌, IfOk};
ghost use Rattle.lvish_explain.specs.Reasons.{fault_of};
ghost use Rattle.lvish_checks.specs.declared.fault.Fault.TheVariants.{WrongKind, Compatible};

use crate::find::name::named;
use crate::finding::Finding;
use crate::forms::uses_of;
use crate::hint::Hint;
use crate::known::{Space, declared};
use crate::place::words_on;
use crate::reason::Reason;
use crate::word::is;
use std::alloc::{AllocError, Global};

/// What the kind of a variable takes.
fn kind_hint<'a>(
    alloc: Global,
    lines: &[&'a [u8]],
    variable: &[u8],
) -> Result<Hint<'a>, AllocError> {
    let variables = declared(alloc, lines, Space::Variable)?;
    let Some(known) = named(variables.as_slice(), variable) else {
        return Ok(Hint::Nothing);
    };
    let declaring = words_on(alloc, lines, known.line)?;
    match declaring.as_slice() {
        [first, ..] => match uses_of(first) {
            Some(uses) => Ok(Hint::Line(known.line, uses)),
            None => Ok(Hint::Nothing),
        },
        [] => Ok(Hint::Nothing),
    }
}

/// The place of the first pool of a `freeze` line that is on another variable, with its line.
fn other_pool<'a>(
    alloc: Global,
    lines: &[&'a [u8]],
    words: &[&'a [u8]],
    variable: &[u8],
) -> Result<(usize, Hint<'a>), AllocError> {
    let pools = declared(alloc, lines, Space::Pool)?;
    for k in 4..words.len() {
        if let Some(known) = named(pools.as_slice(), words[k]) {
            let declaring = words_on(alloc, lines, known.line)?;
            if let [_first, _name, on] = declaring.as_slice() {
                if *on != variable {
                    return Ok((k, Hint::Line(known.line, "declares it on another variable")));
                }
            }
        }
    }
    Ok((2, Hint::Nothing))
}

/// The variable whose kind the statement doesn't fit, with what it takes, or the pool that is on
/// another variable.
pub fn wrong_kind<'a>(
    alloc: Global,
    lines: &[&'a [u8]],
    words: &[&'a [u8]],
) -> Result<Finding<'a>, AllocError>
    ensures { IfOk result (λ found. fault_of found.reason ≡ WrongKind) }
{
    let (reason, word, hint) = match words {
        [first, variable, ..] if is(first, b"put") => {
            (Reason::WrongPut, 1, kind_hint(alloc, lines, variable)?)
        }
        [first, _local, variable, ..] if is(first, b"freeze") => {
            let (place, hint) = other_pool(alloc, lines, words, variable)?;
            (Reason::OtherPool, place, hint)
        }
        [_first, _local, variable, ..] => {
            (Reason::WrongGet, 2, kind_hint(alloc, lines, variable)?)
        }
        _ => (Reason::WrongGet, 0, Hint::Nothing),
    };
    Ok(Finding { reason, word, hint })
}

/// The `in` whose members are compatible.
pub fn compatible<'a>(words: &[&[u8]]) -> Finding<'a>
    ensures { fault_of result.reason ≡ Compatible }
{
    let mut place = 0;
    for k in 3..words.len() {
        if is(words[k], b"in") {
            place = k;
            break;
        }
    }
    Finding {
        reason: Reason::Compatible,
        word: place,
        hint: Hint::Text("only of a cell, or of a map's key, no content has two different numbers"),
    }
}

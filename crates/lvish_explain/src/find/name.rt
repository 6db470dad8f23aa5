//! Names that are declared twice or nowhere, and procedures with another number of parameters.

ghost use Rattle.std.specs.Prelude.{◌≡◌, IfOk};
ghost use Rattle.lvish_explain.specs.Reasons.{fault_of};
ghost use Rattle.lvish_checks.specs.declared.fault.Fault.TheVariants.{DoubleName, UnknownName, WrongCount};

use crate::find::role::role_at;
use crate::finding::Finding;
use crate::hint::Hint;
use crate::known::{Known, Space, declared, names_of, space_of};
use crate::place::{lines_above, words_on};
use crate::reason::Reason;
use crate::word::is;
use std::alloc::{AllocError, Global};

/// The first of the names that is this word.
pub fn named<'a>(names: &[Known<'a>], word: &[u8]) -> Option<Known<'a>> {
    for known in names {
        if known.name == word {
            return Some(*known);
        }
    }
    None
}

/// The second of two parameters of one name.
fn repeated(words: &[&[u8]]) -> Option<usize> {
    for k in 2..words.len() {
        if words[2..k].contains(&words[k]) {
            return Some(k);
        }
    }
    None
}

/// The name that is declared again, with the line that declares it first, or the parameter.
pub fn double_name<'a>(
    alloc: Global,
    lines: &[&'a [u8]],
    words: &[&'a [u8]],
    number: usize,
) -> Result<Finding<'a>, AllocError>
    ensures { IfOk result (λ found. fault_of found.reason ≡ DoubleName) }
{
    if let [first, name, ..] = words {
        if let Some(space) = space_of(first) {
            let above = declared(alloc, lines_above(lines, number), space)?;
            if let Some(known) = named(above.as_slice(), name) {
                return Ok(Finding {
                    reason: Reason::DeclaredAgain,
                    word: 1,
                    hint: Hint::Line(known.line, "declares it first"),
                });
            }
        }
    }
    Ok(Finding {
        reason: Reason::ParameterAgain,
        word: repeated(words).unwrap_or(1),
        hint: Hint::Nothing,
    })
}

/// Whether the line with this number may use the word as a name of the space.
fn is_known(
    alloc: Global,
    lines: &[&[u8]],
    space: Space,
    number: usize,
    word: &[u8],
) -> Result<bool, AllocError> {
    let names = names_of(alloc, lines, space, number)?;
    Ok(named(names.as_slice(), word).is_some())
}

/// The reason for which no name of a space is known.
fn unknown(space: Space) -> Reason
    ensures { fault_of result ≡ UnknownName }
{
    match space {
        Space::Variable => Reason::UnknownVariable,
        Space::Pool => Reason::UnknownPool,
        Space::Procedure => Reason::UnknownProcedure,
        Space::Local => Reason::UnknownLocal,
    }
}

/// The variable of a pool, which isn't declared above it.
fn late_variable<'a>(names: &[Known<'a>], word: &[u8], number: usize) -> Finding<'a>
    ensures { fault_of result.reason ≡ UnknownName }
{
    match named(names, word) {
        Some(known) if known.line >= number => Finding {
            reason: Reason::LateVariable,
            word: 2,
            hint: Hint::Line(known.line, "declares it"),
        },
        _ => Finding {
            reason: Reason::UnknownVariable,
            word: 2,
            hint: Hint::Nothing,
        },
    }
}

/// The first name that isn't declared.
pub fn unknown_name<'a>(
    alloc: Global,
    lines: &[&'a [u8]],
    words: &[&'a [u8]],
    number: usize,
) -> Result<Finding<'a>, AllocError>
    ensures { IfOk result (λ found. fault_of found.reason ≡ UnknownName) }
{
    if let [first, _pool, variable] = words {
        if is(first, b"pool") {
            let variables = declared(alloc, lines, Space::Variable)?;
            return Ok(late_variable(variables.as_slice(), variable, number));
        }
    }
    for k in 1..words.len() {
        if let Some(space) = role_at(words, k) {
            if !is_known(alloc, lines, space, number, words[k])? {
                return Ok(Finding {
                    reason: unknown(space),
                    word: k,
                    hint: Hint::Nothing,
                });
            }
        }
    }
    Ok(Finding {
        reason: Reason::UnknownLocal,
        word: 0,
        hint: Hint::Nothing,
    })
}

/// The place of the procedure's name in a line that gives it terms.
fn procedure_place(words: &[&[u8]]) -> usize {
    match words {
        [first, ..] if is(first, b"handle") => 2,
        [first, ..] if is(first, b"freeze") => words.len().saturating_sub(1),
        _ => 1,
    }
}

/// The procedure that has another number of parameters, with their number.
pub fn wrong_count<'a>(
    alloc: Global,
    lines: &[&'a [u8]],
    words: &[&'a [u8]],
) -> Result<Finding<'a>, AllocError>
    ensures { IfOk result (λ found. fault_of found.reason ≡ WrongCount) }
{
    let place = procedure_place(words);
    let mut hint = Hint::Nothing;
    if let Some(name) = words.get(place) {
        let procedures = declared(alloc, lines, Space::Procedure)?;
        if let Some(known) = named(procedures.as_slice(), name) {
            let declaring = words_on(alloc, lines, known.line)?;
            hint = Hint::Takes(known.line, declaring.len().saturating_sub(2));
        }
    }
    Ok(Finding {
        reason: Reason::WrongCount,
        word: place,
        hint,
    })
}

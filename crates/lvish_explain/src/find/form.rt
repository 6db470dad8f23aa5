//! Lines that have none of the forms of their version, or stand where they may not.

ghost use Rattle.std.specs.Prelude.{◌≡◌, IfOk};
ghost use Rattle.lvish_explain.specs.Reasons.{fault_of};
ghost use Rattle.lvish_checks.specs.declared.fault.Fault.TheVariants.{BadLine};

use crate::finding::Finding;
use crate::forms::{first_words, forms_of};
use crate::hint::Hint;
use crate::known::{Space, declared};
use crate::near::nearest;
use crate::place::lines_above;
use crate::reason::Reason;
use crate::word::is;
use lvish_checks::{Line, line_of, words_of};
use std::alloc::{AllocError, Global};

/// Whether the first line with words says that the script is of version 2.
fn is_of_version_two(alloc: Global, lines: &[&[u8]]) -> Result<bool, AllocError> {
    for line in lines {
        let words = words_of(alloc, line)?;
        if let [first, ..] = words.as_slice() {
            return Ok(is(first, b"lvish"));
        }
    }
    Ok(false)
}

/// What lines with this first word look like, or the nearest first word.
fn form_hint<'a>(alloc: Global, first: &[u8]) -> Result<Hint<'a>, AllocError> {
    if let Some(forms) = forms_of(first) {
        return Ok(Hint::Text(forms));
    }
    let known = first_words(alloc)?;
    match nearest(alloc, first, known.as_slice())? {
        Some(near) => Ok(Hint::Word(near.name)),
        None => Ok(Hint::Nothing),
    }
}

/// A line with none of the forms.
fn no_form<'a>(alloc: Global, words: &[&[u8]]) -> Result<Finding<'a>, AllocError>
    ensures { IfOk result (λ found. fault_of found.reason ≡ BadLine) }
{
    let [first, ..] = words else {
        return Ok(Finding {
            reason: Reason::NoForm,
            word: 0,
            hint: Hint::Nothing,
        });
    };
    let hint = form_hint(alloc, first)?;
    Ok(Finding {
        reason: Reason::NoForm,
        word: 0,
        hint,
    })
}

/// Whether a word has another meaning in the two versions.
fn is_of_versions(word: &[u8]) -> bool {
    is(word, b"lvish") || is(word, b"tally") || is(word, b"total")
}

/// The place of the first word that has another meaning in the two versions.
fn version_place(words: &[&[u8]]) -> usize {
    for k in 0..words.len() {
        if is_of_versions(words[k]) {
            return k;
        }
    }
    0
}

/// A line with a form of the other version.
fn of_other_version<'a>(
    alloc: Global,
    lines: &[&[u8]],
    words: &[&[u8]],
) -> Result<Finding<'a>, AllocError>
    ensures { IfOk result (λ found. fault_of found.reason ≡ BadLine) }
{
    let word = version_place(words);
    if is_of_version_two(alloc, lines)? {
        return Ok(Finding {
            reason: Reason::ReservedInTwo,
            word,
            hint: Hint::Nothing,
        });
    }
    Ok(Finding {
        reason: Reason::OfVersionTwo,
        word,
        hint: Hint::Text("the first line of a script of version 2 is `lvish 2`"),
    })
}

/// A declaration, which may stand below a procedure.
fn bad_declaration<'a>(
    alloc: Global,
    lines: &[&'a [u8]],
    words: &[&'a [u8]],
    number: usize,
) -> Result<Finding<'a>, AllocError>
    ensures { IfOk result (λ found. fault_of found.reason ≡ BadLine) }
{
    let procedures = declared(alloc, lines_above(lines, number), Space::Procedure)?;
    match procedures.as_slice() {
        [] => of_other_version(alloc, lines, words),
        [known, ..] => Ok(Finding {
            reason: Reason::BelowProcedure,
            word: 0,
            hint: Hint::Line(known.line, "begins the first procedure"),
        }),
    }
}

/// Why a line is bad, with the forms of its first word.
pub fn bad_line<'a>(
    alloc: Global,
    lines: &[&'a [u8]],
    words: &[&'a [u8]],
    number: usize,
) -> Result<Finding<'a>, AllocError>
    ensures { IfOk result (λ found. fault_of found.reason ≡ BadLine) }
{
    let said = line_of(alloc, words)?;
    match &said {
        Line::Bad | Line::Blank => no_form(alloc, words),
        Line::Version => Ok(Finding {
            reason: Reason::LateVersion,
            word: 0,
            hint: Hint::Nothing,
        }),
        Line::Declare(_) => bad_declaration(alloc, lines, words, number),
        _ => of_other_version(alloc, lines, words),
    }
}

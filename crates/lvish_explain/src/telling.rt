ghost use Rattle.std.specs.Prelude.{◌≡◌, IfOk, map};
ghost use Rattle.lvish_explain.specs.Draft.{Adds};
ghost use Rattle.lvish_explain.specs.Text.{column_text, line_text, place_text, quote_text, explanation};
ghost use Rattle.lvish_explain.specs.Explained.{IsExplained, mark_on, hint_with};

use crate::draft::Draft;
use crate::find::find;
use crate::hint::{Hint, push_hint};
use crate::known::Known;
use crate::mark::{Mark, first_foreign, mark_of};
use crate::near::near_name;
use crate::place::line_at;
use crate::reason::Reason;
use lvish_checks::{Fault, ScriptFault, lines_of, words_of};
use std::alloc::{AllocError, Global};

/// The column in which the carets begin.
#[tactic(auto, using(crate::proofs::Adding::adds_then, crate::proofs::Adding::adds_none))]
fn push_column(text: &mut Draft, mark: Option<Mark>)
    ensures { Adds text.old text.new (column_text mark) }
{
    match mark {
        None => {}
        Some(mark) => {
            text.add(b":");
            text.add_number(mark.column);
        }
    }
}

/// The line, unless it is the whole text, and the column.
#[tactic(auto, using(crate::proofs::Adding::adds_then, crate::proofs::Adding::adds_none))]
fn push_line_number(text: &mut Draft, number: usize, mark: Option<Mark>)
    ensures { Adds text.old text.new (line_text number mark) }
{
    if number == 0 {
        return;
    }
    text.add(b":");
    text.add_number(number);
    push_column(text, mark);
}

/// The place: the file, the line and the column.
#[tactic(auto, using(crate::proofs::Adding::adds_then, crate::proofs::Adding::adds_none))]
pub fn push_place(text: &mut Draft, file: &str, number: usize, mark: Option<Mark>)
    ensures { Adds text.old text.new (place_text file.now number mark) }
{
    text.add(file.as_bytes());
    push_line_number(text, number, mark);
    text.add(b": ");
}

/// The line as it stands, with the carets under it.
#[tactic(auto, using(crate::proofs::Adding::adds_then, crate::proofs::Adding::adds_none))]
pub fn push_quote(text: &mut Draft, line: &[u8], mark: Option<Mark>)
    ensures { Adds text.old text.new (quote_text line.now mark) }
{
    match mark {
        None => {}
        Some(mark) => {
            text.add(b"    ");
            text.add_shown(line);
            text.add(b"\n    ");
            text.add_repeated(b' ', mark.column.saturating_sub(1));
            text.add_repeated(b'^', mark.length);
            text.add(b"\n");
        }
    }
}

/// Where the carets stand: under the first byte that no script has, or under the word that was found.
fn mark_on(
    alloc: Global,
    fault: Fault,
    line: &[u8],
    words: &[&[u8]],
    word: usize,
) -> Result<Option<Mark>, AllocError>
    ensures { IfOk result (λ mark. mark ≡ mark_on fault line.now (map (λ w. w.now) words.now) word) }
{
    match fault {
        Fault::NotAscii => Ok(first_foreign(line)),
        _ => mark_of(alloc, line, words, word),
    }
}

/// What was found, behind what a text has.
#[tactic(auto, using(crate::proofs::Adding::adds_then, crate::proofs::Adding::adds_none))]
fn push_explanation(
    text: &mut Draft,
    file: &str,
    number: usize,
    line: &[u8],
    mark: Option<Mark>,
    reason: Reason,
    hint: &Hint<'_>,
)
    ensures { Adds text.old text.new (explanation file.now number line.now mark reason hint.now) }
{
    push_place(text, file, number, mark);
    text.add(reason.sentence().as_bytes());
    text.add(b"\n");
    push_quote(text, line, mark);
    push_hint(text, hint);
}

/// The text of what was found.
#[tactic(auto, using(crate::proofs::Adding::all_added))]
fn tell(
    alloc: Global,
    file: &str,
    number: usize,
    line: &[u8],
    mark: Option<Mark>,
    reason: Reason,
    hint: &Hint<'_>,
) -> Result<Vec<u8>, AllocError>
    ensures { IfOk result (λ text. text.items ≡ explanation file.now number line.now mark reason hint.now) }
{
    let mut text = Draft::new(alloc);
    push_explanation(&mut text, file, number, line, mark, reason, hint);
    text.into_bytes()
}

/// The declared name that is near, or else what was found.
fn hint_with<'a>(near: Option<Known<'a>>, hint: Hint<'a>) -> Hint<'a>
    ensures { result ≡ hint_with near.entry hint.entry }
{
    match near {
        Some(known) => Hint::Near(known),
        None => hint,
    }
}

/// Why the text is refused for a fault: its place, a sentence, the line with carets under a word, and
/// a hint where there is one.
///
/// Any text and any fault may be given, and nothing but memory is asked for.
pub fn explain(
    alloc: Global,
    file: &str,
    text: &[u8],
    fault: ScriptFault,
) -> Result<Vec<u8>, AllocError>
    ensures { IfOk result (λ told. IsExplained file.now text.now fault told.items) }
{
    let lines = lines_of(alloc, text)?;
    let line = line_at(lines.as_slice(), fault.line);
    let words = words_of(alloc, line)?;
    let (lines, words) = (lines.as_slice(), words.as_slice());
    let found = find(alloc, lines, words, fault)?;
    let near = near_name(alloc, lines, words, fault.line, found.reason, found.word)?;
    let mark = mark_on(alloc, fault.fault, line, words, found.word)?;
    let hint = hint_with(near, found.hint);
    tell(alloc, file, fault.line, line, mark, found.reason, &hint)
}

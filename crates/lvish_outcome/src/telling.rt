//! The text of what is told.

ghost use Rattle.std.specs.Prelude.{◌≡◌, IfOk, map};
ghost use Rattle.lvish_checks.specs.Text.{words_of};
ghost use Rattle.lvish_explain.specs.Draft.{Adds};
ghost use Rattle.lvish_explain.specs.Mark.{mark_of};
ghost use Rattle.lvish_outcome.specs.Telling.{saying_text, marked_text, at_word, error_text, blocked_text, blocked_texts, steps_text, steps_texts};

use crate::saying::Saying;
use crate::standing::push_standing;
use crate::told::{BlockedTold, ErrorTold, LineCount};
use lvish_checks::words_of;
use lvish_explain::{Draft, Mark, line_at, mark_of, push_place, push_quote};
use std::alloc::{AllocError, Global};

/// The place of the variable among the words of a `get` or a `freeze`.
const VARIABLE: usize = 2;

/// A place, what is said of it, and the line with carets.
#[tactic(auto, using(lvish_explain::proofs::Adding::adds_then, lvish_explain::proofs::Adding::adds_none))]
fn push_marked(
    text: &mut Draft,
    file: &str,
    number: usize,
    line: &[u8],
    mark: Option<Mark>,
    saying: Saying<'_>,
)
    ensures { Adds text.old text.new (marked_text file.now number line.now mark (saying_text saying.entry)) }
{
    push_place(text, file, number, mark);
    saying.push(text);
    text.add(b"\n");
    push_quote(text, line, mark);
}

/// Where the carets stand under a word of a line.
fn mark_in(alloc: Global, line: &[u8], word: usize) -> Result<Option<Mark>, AllocError>
    ensures { IfOk result (λ mark. mark ≡ mark_of line.now (words_of line.now) word) }
{
    let words = words_of(alloc, line)?;
    mark_of(alloc, line, words.as_slice(), word)
}

/// The place of a line, what is said of it, and the line with carets under a word.
#[tactic(auto, unfolding(crate::specs::Telling::at_word))]
fn push_at_word(
    text: &mut Draft,
    file: &str,
    lines: &[&[u8]],
    number: usize,
    word: usize,
    saying: Saying<'_>,
)
    ensures { Adds text.old text.new (at_word file.now (map (λ l. l.now) lines.now) number word (saying_text saying.entry)) }
{
    let line = line_at(lines, number);
    match mark_in(text.alloc, line, word) {
        Ok(mark) => push_marked(text, file, number, line, mark, saying),
        Err(_) => text.fail(),
    }
}

/// An error: what the task does, where it stands, and the earlier step.
#[tactic(auto, using(lvish_explain::proofs::Adding::adds_then, lvish_explain::proofs::Adding::adds_none), unfolding(crate::specs::Telling::error_text))]
fn push_error(text: &mut Draft, file: &str, lines: &[&[u8]], told: &ErrorTold<'_>)
    ensures { Adds text.old text.new (error_text file.now (map (λ l. l.now) lines.now) told.now) }
{
    let standing = &told.standing;
    let saying = Saying::Does(standing.task, &told.trouble);
    push_at_word(text, file, lines, standing.line, told.word, saying);
    push_standing(text, standing);
    told.earlier.push(text);
}

/// The text of an error.
#[tactic(auto, using(lvish_explain::proofs::Adding::all_added))]
pub fn error_text(
    alloc: Global,
    file: &str,
    lines: &[&[u8]],
    told: &ErrorTold<'_>,
) -> Result<Vec<u8>, AllocError>
    ensures { IfOk result (λ t. t.items ≡ error_text file.now (map (λ l. l.now) lines.now) told.now) }
{
    let mut text = Draft::new(alloc);
    push_error(&mut text, file, lines, told);
    text.into_bytes()
}

/// The tasks that are blocked at a line.
#[tactic(auto, using(lvish_explain::proofs::Adding::adds_then, lvish_explain::proofs::Adding::adds_none), unfolding(crate::specs::Telling::blocked_text))]
fn push_blocked(text: &mut Draft, file: &str, lines: &[&[u8]], told: &BlockedTold<'_>)
    ensures { Adds text.old text.new (blocked_text file.now (map (λ l. l.now) lines.now) told.now) }
{
    let standing = &told.standing;
    let saying = Saying::Waits(told.count, standing.task, &told.wait);
    push_at_word(text, file, lines, standing.line, VARIABLE, saying);
    push_standing(text, standing);
}

/// The same of lines.
#[tactic(auto, using(lvish_explain::proofs::Adding::adds_then, lvish_explain::proofs::Adding::adds_none))]
fn push_all_blocked(text: &mut Draft, file: &str, lines: &[&[u8]], told: &[BlockedTold<'_>])
    ensures { Adds text.old text.new (blocked_texts file.now (map (λ l. l.now) lines.now) told.now) }
{
    for blocked in told {
        push_blocked(text, file, lines, blocked);
    }
}

/// The texts of lines at which tasks are blocked.
#[tactic(auto, using(lvish_explain::proofs::Adding::all_added))]
pub fn blocked_texts(
    alloc: Global,
    file: &str,
    lines: &[&[u8]],
    told: &[BlockedTold<'_>],
) -> Result<Vec<u8>, AllocError>
    ensures { IfOk result (λ t. t.items ≡ blocked_texts file.now (map (λ l. l.now) lines.now) told.now) }
{
    let mut text = Draft::new(alloc);
    push_all_blocked(&mut text, file, lines, told);
    text.into_bytes()
}

/// How many steps were made at a line.
#[tactic(auto, unfolding(crate::specs::Telling::steps_text))]
fn push_steps(text: &mut Draft, file: &str, lines: &[&[u8]], told: LineCount)
    ensures { Adds text.old text.new (steps_text file.now (map (λ l. l.now) lines.now) told) }
{
    let LineCount { line, count } = told;
    push_at_word(text, file, lines, line, 0, Saying::Made(count));
}

/// The same of lines.
#[tactic(auto, using(lvish_explain::proofs::Adding::adds_joined, lvish_explain::proofs::Adding::adds_none))]
pub fn push_all_steps(text: &mut Draft, file: &str, lines: &[&[u8]], told: &[LineCount])
    ensures { Adds text.old text.new (steps_texts file.now (map (λ l. l.now) lines.now) told.now) }
{
    for steps in told {
        push_steps(text, file, lines, *steps);
    }
}

ghost use Rattle.std.specs.Prelude.{◌≡◌, IfOk, map};
ghost use Rattle.lvish_checks.specs.declared.line.Line.{Line};
ghost use Rattle.lvish_checks.specs.Form.{bare_line, block_line, block_form};
ghost use Rattle.lvish_checks.specs.declared.line.Line.TheVariants.{If, While};

use crate::form::term::only_term;
use crate::line::Line;
use crate::word::is;
use lvish_base::Boxed;
use std::alloc::{AllocError, Global};

#[tactic(auto, unfolding(crate::specs::Form::block_line))]
fn if_line(alloc: Global, words: &[&[u8]]) -> Result<Line, AllocError>
    ensures { IfOk result (λ l. l ≡ block_line (λ t. If t) (map (λ w. w.now) words.now)) }
{
    match only_term(words) {
        Some(term) => Ok(Line::If(Boxed::new(alloc, term)?)),
        None => Ok(Line::Bad),
    }
}

#[tactic(auto, unfolding(crate::specs::Form::block_line))]
fn while_line(alloc: Global, words: &[&[u8]]) -> Result<Line, AllocError>
    ensures { IfOk result (λ l. l ≡ block_line (λ t. While t) (map (λ w. w.now) words.now)) }
{
    match only_term(words) {
        Some(term) => Ok(Line::While(Boxed::new(alloc, term)?)),
        None => Ok(Line::Bad),
    }
}

/// The line, where no further word stands on it.
#[tactic(auto, unfolding(crate::specs::Form::bare_line))]
fn bare_line(line: Line, words: &[&[u8]]) -> Line
    ensures { result ≡ bare_line line (map (λ w. w.now) words.now) }
{
    match words {
        [] => line,
        [_, ..] => Line::Bad,
    }
}

/// What a line says that begins with `if`, `while`, `else` or `end`.
pub fn block_form(alloc: Global, word: &[u8], rest: &[&[u8]]) -> Result<Line, AllocError>
    ensures { IfOk result (λ l. l ≡ block_form word.now (map (λ w. w.now) rest.now)) }
{
    if is(word, b"if") {
        if_line(alloc, rest)
    } else if is(word, b"while") {
        while_line(alloc, rest)
    } else if is(word, b"else") {
        Ok(bare_line(Line::Else, rest))
    } else if is(word, b"end") {
        Ok(bare_line(Line::End, rest))
    } else {
        Ok(Line::Bad)
    }
}

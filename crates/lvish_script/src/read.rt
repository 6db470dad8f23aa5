ghost use Rattle.std.specs.Prelude.{◌≡◌, length, map, nat_lt, None, Some, IfOk, MatchResult, if◌then◌else◌};
ghost use Rattle.std.specs.List.{list_any};
ghost use Rattle.std.specs.Option.{option_or};
ghost use Rattle.lvish_checks.specs.Text.{words_of};
ghost use Rattle.lvish_checks.specs.Form.{is_bad_number, line_of};
ghost use Rattle.lvish_checks.specs.Checks.{on_line, IsFirstOn};
ghost use Rattle.lvish_script.specs.Spells.{Spells, IsTextRefused};

use crate::nest::nest;
use lvish_checks::{
    Fault, Line, ScriptFault, first_bad_number, first_fault, line_of, lines_of, put_words,
    version_of,
};
use lvish_syntax::{MOST_BYTES, Script};
use std::alloc::{AllocError, Global};

fn is_too_long(text: &[u8]) -> bool
    ensures { result ≡ nat_lt MOST_BYTES (length text.now) }
{
    text.len() > MOST_BYTES
}

/// What a line says, and the line that was found before, or else this one, where one of its words is a
/// number word that is no number. Its words stand in the place of those of the line before.
fn said_by<'a>(
    alloc: Global,
    words: &mut Vec<&'a [u8]>,
    line: &'a [u8],
    bad_number: Option<usize>,
    number: usize,
) -> Result<(Line, Option<usize>), AllocError>
    ensures line { IfOk result (λ r. r.0 ≡ line_of (words_of line.now)) }
    ensures bad_number { IfOk result (λ r. r.1 ≡ option_or bad_number (if list_any is_bad_number (words_of line.now) then Some number else None)) }
{
    put_words(words, line)?;
    let words = words.as_slice();
    Ok((
        line_of(alloc, words)?,
        first_bad_number(bad_number, words, number),
    ))
}

/// What lines say, and the first of them with a number word that is no number.
fn said(alloc: Global, lines: &[&[u8]]) -> Result<(Vec<Line>, Option<usize>), AllocError>
    ensures lines { IfOk result (λ r. r.0.items ≡ map line_of (map (λ line. words_of line.now) lines.now)) }
    ensures bad_number { IfOk result (λ r. IsFirstOn (on_line (λ k words. list_any is_bad_number words) (map (λ line. words_of line.now) lines.now)) r.1) }
{
    let mut said = Vec::with_capacity(alloc, lines.len())?;
    let mut words = Vec::new(alloc);
    let mut bad_number = None;
    for k in 0..lines.len() {
        let (line, found) = said_by(alloc, &mut words, lines[k], bad_number, k + 1)?;
        said.push(line)?;
        bad_number = found;
    }
    Ok((said, bad_number))
}

/// The script that a text spells, or the first check that fails with the lowest line on which it does.
///
/// Any bytes may be given. `Memory`, with line 0, may come in place of any answer.
pub fn read_script(alloc: Global, text: &[u8]) -> Result<Script, ScriptFault>
    ensures { MatchResult result (Spells text.now) (IsTextRefused text.now) }
{
    if is_too_long(text) {
        return Err(ScriptFault {
            fault: Fault::TooLong,
            line: 0,
        });
    }
    let lines = lines_of(alloc, text)?;
    let lines = lines.as_slice();
    let (said, bad_number) = said(alloc, lines)?;
    let version = version_of(said.as_slice());
    match first_fault(alloc, lines, bad_number, said.as_slice())? {
        Some(fault) => Err(fault),
        None => {
            let (declarations, procedures) = nest(alloc, said)?;
            Ok(Script::of(version, declarations, procedures))
        }
    }
}

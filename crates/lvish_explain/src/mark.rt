//! Where the carets stand.

ghost use Rattle.std.specs.Prelude.{◌≡◌, IfOk, map, true};
ghost use Rattle.lvish_checks.specs.Text.{is_separator, is_foreign};
ghost use Rattle.lvish_explain.specs.Mark.{word_columns, mark_of, mark_at, first_foreign};

use std::alloc::{AllocError, Global};

/// The bytes of a line under which the carets stand.
#[derive(Clone, Copy)]
pub struct Mark {
    /// Where they begin, from 1.
    pub column: usize,
    pub length: usize,
}

fn is_separator(b: u8) -> bool
    ensures { result ≡ is_separator b }
{
    b == b' ' || b == b'\t' || b == b'\r'
}

fn is_foreign(b: u8) -> bool
    ensures { result ≡ is_foreign b }
{
    !(b == b'\t' || b == b'\n' || b == b'\r' || (b >= 32 && b <= 126))
}

/// The columns, from 1, at which words begin, those of a comment too.
fn word_columns(alloc: Global, line: &[u8]) -> Result<Vec<usize>, AllocError>
    ensures { IfOk result (λ v. v.items ≡ word_columns 1 true line.now) }
{
    let mut columns = Vec::new(alloc);
    let mut may_begin = true;
    for k in 0..line.len() {
        let separates = is_separator(line[k]);
        if may_begin && !separates {
            columns.push(k + 1)?;
        }
        may_begin = separates;
    }
    Ok(columns)
}

/// The word at a place among the words that begin in these columns, if there is one.
fn mark_at(columns: &[usize], words: &[&[u8]], place: usize) -> Option<Mark>
    ensures { result ≡ mark_at columns.now (map (λ w. w.now) words.now) place }
{
    let column = columns.get(place)?;
    let word = words.get(place)?;
    Some(Mark {
        column: *column,
        length: word.len(),
    })
}

/// The word at a place among the words of a line; the first where there is none at this place.
pub fn mark_of(
    alloc: Global,
    line: &[u8],
    words: &[&[u8]],
    place: usize,
) -> Result<Option<Mark>, AllocError>
    ensures { IfOk result (λ found. found ≡ mark_of line.now (map (λ w. w.now) words.now) place) }
{
    let columns = word_columns(alloc, line)?;
    let columns = columns.as_slice();
    match mark_at(columns, words, place) {
        Some(mark) => Ok(Some(mark)),
        None => Ok(mark_at(columns, words, 0)),
    }
}

/// The first byte of a line that no script has.
pub fn first_foreign(line: &[u8]) -> Option<Mark>
    ensures { result ≡ first_foreign 1 line.now }
{
    for k in 0..line.len() {
        if is_foreign(line[k]) {
            return Some(Mark {
                column: k + 1,
                length: 1,
            });
        }
    }
    None
}

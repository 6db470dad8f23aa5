ghost use Rattle.std.specs.Prelude.{◌≡◌, ◌+◌, ◌<◌, ◌≤◌, ◌==◌, ◌++◌, ◌∷◌, [], IfOk, OnErr, OnOk, length, map, take, drop, if◌then◌else◌};
ghost use Rattle.std.specs.List.{slice_split, position_or_len};
ghost use Rattle.lvish_checks.specs.Text.{lines_of, words_of, is_separator, is_comment, without_last_feed};

use std::alloc::{AllocError, Global};

fn is_separator(b: u8) -> bool
    ensures { result ≡ is_separator b }
{
    b == b' ' || b == b'\t' || b == b'\r'
}

fn is_comment(word: &[u8]) -> bool
    ensures { result ≡ is_comment word.now }
{
    match word {
        [] => false,
        [b, ..] => *b == b'#',
    }
}

/// How many bytes stand before the first separator. Each byte of a script comes here.
fn piece_length(line: &[u8]) -> usize
    ensures place { result ≡ position_or_len is_separator line.now }
    ensures most { result ≤ length line.now }
{
    for at in 0..line.len() {
        if is_separator(line[at]) {
            return at;
        }
    }
    line.len()
}

/// What stands behind a place of a line.
fn behind(line: &[u8], at: usize) -> &[u8]
    requires { at < length line.now }
    ensures rest { result.now ≡ drop (at + 1) line.now }
    ensures shorter { length result.now < length line.now }
{
    &line[at + 1..]
}

/// Puts a piece of a line behind other words, unless it is empty.
fn put_piece<'a>(words: &mut Vec<&'a [u8]>, piece: &'a [u8]) -> Result<(), AllocError>
    ensures put { OnOk result (map (λ w. w.now) words.new.items ≡ map (λ w. w.now) words.old.items ++ (if length piece.now == 0 then [] else piece.now ∷ [])) }
    ensures refused { OnErr result (words.new.items ≡ words.old.items) }
{
    if piece.is_empty() {
        return Ok(());
    }
    words.push(piece)?;
    Ok(())
}

/// Puts the words of a line in place of other words, so that the lines of a text share their room.
/// Where a growth is refused the first words of the line stand there, as many as found room.
pub fn put_words<'a>(words: &mut Vec<&'a [u8]>, line: &'a [u8]) -> Result<(), AllocError>
    ensures words { OnOk result (map (λ w. w.now) words.new.items ≡ words_of line.now) }
    ensures refused { OnErr result (map (λ w. w.now) words.new.items ≡ take (length words.new.items) (words_of line.now)) }
{
    words.clear();
    let mut rest = line;
    loop {
        let length = piece_length(rest);
        let piece = &rest[..length];
        if is_comment(piece) {
            return Ok(());
        }
        put_piece(words, piece)?;
        if length >= rest.len() {
            return Ok(());
        }
        rest = behind(rest, length);
    }
}

/// The words of a line.
pub fn words_of(alloc: Global, line: &[u8]) -> Result<Vec<&[u8]>, AllocError>
    ensures { IfOk result (λ v. map (λ w. w.now) v.items ≡ words_of line.now) }
{
    let mut words = Vec::new(alloc);
    put_words(&mut words, line)?;
    Ok(words)
}

/// A text without its last line feed, if it ends in one.
fn without_last_feed(text: &[u8]) -> &[u8]
    ensures { result.now ≡ without_last_feed text.now }
{
    let n = text.len();
    if n > 0 && text[n - 1] == b'\n' {
        &text[..n - 1]
    } else {
        text
    }
}

/// The pieces of a text between line feeds.
fn pieces(alloc: Global, text: &[u8]) -> Result<Vec<&[u8]>, AllocError>
    ensures { IfOk result (λ v. map (λ w. w.now) v.items ≡ slice_split (λ b. b == 10) text.now) }
{
    text.split(|b| *b == b'\n').collect(alloc)
}

/// The lines of a text.
pub fn lines_of(alloc: Global, text: &[u8]) -> Result<Vec<&[u8]>, AllocError>
    ensures { IfOk result (λ v. map (λ w. w.now) v.items ≡ lines_of text.now) }
{
    if text.is_empty() {
        return Ok(Vec::new(alloc));
    }
    pieces(alloc, without_last_feed(text))
}

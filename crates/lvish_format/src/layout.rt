//! Lines written behind what a text has. Where a growth is refused a part of the line stands there;
//! `format_script`, whose text it is, drops it then.

ghost use Rattle.std.specs.Prelude.{◌≡◌, ◌<◌, ◌^◌, ◌++◌, OnOk, map};
ghost use Rattle.std.specs.Str.{bytes_eq};
ghost use Rattle.lvish_script.specs.Canonical.{spaced, words_joined};
ghost use Rattle.lvish_format.specs.Format.{indent, margin, formatted_line, depth_after, ended};

use std::alloc::AllocError;

fn push_indent(text: &mut Vec<u8>, blocks: usize) -> Result<(), AllocError>
    ensures { OnOk result (text.new.items ≡ text.old.items ++ indent blocks) }
{
    for _block in 0..blocks {
        text.extend_from_slice(b"  ")?;
    }
    Ok(())
}

/// Words, each after a space.
fn push_spaced(text: &mut Vec<u8>, words: &[&[u8]]) -> Result<(), AllocError>
    ensures { OnOk result (text.new.items ≡ text.old.items ++ spaced (map (λ w. w.now) words.now)) }
{
    for word in words {
        text.push(b' ')?;
        text.extend_from_slice(word)?;
    }
    Ok(())
}

// A match on texts would be proved byte by byte.
/// Whether a word is this text.
fn is(word: &[u8], text: &[u8]) -> bool
    ensures { result ≡ bytes_eq word.now text.now }
{
    word == text
}

/// Before how many blocks a line with this first word stands: `proc` stands before none, and `end`
/// and `else` below the line that opened their block.
fn margin(depth: usize, first: &[u8]) -> usize
    ensures { result ≡ margin depth first.now }
{
    if is(first, b"proc") {
        0
    } else if is(first, b"end") || is(first, b"else") {
        depth.saturating_sub(1)
    } else {
        depth
    }
}

/// How many blocks are open below a line with these pieces.
pub fn depth_after(depth: usize, pieces: &[&[u8]]) -> usize
    requires { depth < 2 ^ 63 }
    ensures { result ≡ depth_after depth (map (λ w. w.now) pieces.now) }
{
    let [first, ..] = pieces else {
        return depth;
    };
    if is(first, b"proc") {
        1
    } else if is(first, b"if") || is(first, b"while") {
        depth + 1
    } else if is(first, b"end") {
        depth.saturating_sub(1)
    } else {
        depth
    }
}

/// A line with these pieces, its words and its comment, and the line feed at its end.
pub fn push_line(text: &mut Vec<u8>, depth: usize, pieces: &[&[u8]]) -> Result<(), AllocError>
    ensures { OnOk result (text.new.items ≡ text.old.items ++ ended (formatted_line depth (map (λ w. w.now) pieces.now))) }
{
    if let [first, rest @ ..] = pieces {
        push_indent(text, margin(depth, first))?;
        text.extend_from_slice(first)?;
        push_spaced(text, rest)?;
    }
    text.push(b'\n')?;
    Ok(())
}

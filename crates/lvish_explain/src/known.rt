//! The names that lines declare, each with its line.

ghost use Rattle.std.specs.Prelude.{◌≡◌, IfOk, OnOk, ◌++◌, [], map};
ghost use Rattle.lvish_explain.specs.Known.{seen, declares_variable, space_of, declared_by, declared_from, is_procedure_line, binds_local, locals_by, locals_from, names_of};

use crate::word::is;
use lvish_checks::put_words;
use std::alloc::{AllocError, Global};

/// What is named: each has its own names.
#[derive(Clone, Copy, PartialEq, Eq)]
pub enum Space {
    Variable,
    Pool,
    Procedure,
    Local,
}

/// A name, and the line that declares it.
#[derive(Clone, Copy)]
pub struct Known<'a> {
    pub name: &'a [u8],
    pub line: usize,
}

// A match on texts would be proved byte by byte.
fn declares_variable(first: &[u8]) -> bool
    ensures { result ≡ declares_variable first.now }
{
    is(first, b"cell")
        || is(first, b"set")
        || is(first, b"max")
        || is(first, b"map")
        || is(first, b"pair")
        || is(first, b"tally")
}

/// What a line that begins with this word declares.
pub fn space_of(first: &[u8]) -> Option<Space>
    ensures { result ≡ space_of first.now }
{
    if declares_variable(first) {
        Some(Space::Variable)
    } else if is(first, b"pool") {
        Some(Space::Pool)
    } else if is(first, b"proc") {
        Some(Space::Procedure)
    } else {
        None
    }
}

/// Puts the name that a line with these words declares in a space, if it does, behind others.
fn push_declared<'a>(
    known: &mut Vec<Known<'a>>,
    space: Space,
    words: &[&'a [u8]],
    line: usize,
) -> Result<(), AllocError>
    ensures { OnOk result (map seen known.new.items ≡ map seen known.old.items ++ declared_by space line (map (λ w. w.now) words.now)) }
{
    if let [first, name, ..] = words {
        if space_of(first) == Some(space) {
            known.push(Known { name, line })?;
        }
    }
    Ok(())
}

/// The names of a space that lines declare, in order: variables, pools or procedures.
pub fn declared<'a>(
    alloc: Global,
    lines: &[&'a [u8]],
    space: Space,
) -> Result<Vec<Known<'a>>, AllocError>
    ensures { IfOk result (λ v. map seen v.items ≡ declared_from 1 space (map (λ l. l.now) lines.now)) }
{
    let mut known = Vec::new(alloc);
    let mut words = Vec::new(alloc);
    for k in 0..lines.len() {
        put_words(&mut words, lines[k])?;
        push_declared(&mut known, space, words.as_slice(), k + 1)?;
    }
    Ok(known)
}

fn is_procedure_line(words: &[&[u8]]) -> bool
    ensures { result ≡ is_procedure_line (map (λ w. w.now) words.now) }
{
    match words {
        [first, ..] => is(first, b"proc"),
        [] => false,
    }
}

fn binds_local(first: &[u8]) -> bool
    ensures { result ≡ binds_local first.now }
{
    is(first, b"let") || is(first, b"get") || is(first, b"freeze")
}

/// Puts the locals that a line with these words makes behind others: the parameters of a `proc`
/// line, and X of a `let`, `get` or `freeze` line.
fn push_locals<'a>(
    known: &mut Vec<Known<'a>>,
    words: &[&'a [u8]],
    line: usize,
) -> Result<(), AllocError>
    ensures { OnOk result (map seen known.new.items ≡ map seen known.old.items ++ locals_by line (map (λ w. w.now) words.now)) }
{
    let [first, name, rest @ ..] = words else {
        return Ok(());
    };
    if is(first, b"proc") {
        for name in rest {
            known.push(Known { name, line })?;
        }
    } else if binds_local(first) {
        known.push(Known { name, line })?;
    }
    Ok(())
}

/// The locals of the last procedure that begins on a line or above it, in order.
pub fn locals<'a>(
    alloc: Global,
    lines: &[&'a [u8]],
    number: usize,
) -> Result<Vec<Known<'a>>, AllocError>
    ensures { IfOk result (λ v. map seen v.items ≡ locals_from 1 number [] (map (λ l. l.now) lines.now)) }
{
    let mut known = Vec::new(alloc);
    let mut words = Vec::new(alloc);
    for k in 0..lines.len() {
        put_words(&mut words, lines[k])?;
        if is_procedure_line(words.as_slice()) {
            if k >= number {
                return Ok(known);
            }
            known.clear();
        }
        push_locals(&mut known, words.as_slice(), k + 1)?;
    }
    Ok(known)
}

/// The names of a space that the line with this number may use.
pub fn names_of<'a>(
    alloc: Global,
    lines: &[&'a [u8]],
    space: Space,
    number: usize,
) -> Result<Vec<Known<'a>>, AllocError>
    ensures { IfOk result (λ v. map seen v.items ≡ names_of space (map (λ l. l.now) lines.now) number) }
{
    match space {
        Space::Local => locals(alloc, lines, number),
        Space::Variable | Space::Pool | Space::Procedure => declared(alloc, lines, space),
    }
}

ghost use Rattle.std.specs.Prelude.{◌≡◌, ◌++◌, [], IfOk, IfErr, OnOk, OnErr, map, length, Some, None};
ghost use Rattle.std.specs.Str.{bytes_eq};
ghost use Rattle.lvish_facts.specs.Names.{names_in};
ghost use Rattle.lvish_pointing.specs.Facts.{facts_of, facts_on, kind_named, missing_on, IsAccepted};
ghost use Rattle.lvish_pointing.specs.Numbers.{spelled};
ghost use Rattle.lvish_pointing.specs.Answers.{IsRefused};

use crate::fact::{Fact, Kind};
use crate::fault::{Expected, PointFault};
use lvish_checks::{lines_of, put_words};
use std::alloc::{AllocError, Global};

/// Whether a word is this text.
fn is(word: &[u8], text: &[u8]) -> bool
    ensures { result ≡ bytes_eq word.now text.now }
{
    word == text
}

/// The kind that a word names.
fn kind_named(word: &[u8]) -> Option<Kind>
    ensures { result ≡ kind_named word.now }
{
    if is(word, b"address") {
        Some(Kind::Address)
    } else if is(word, b"copy") {
        Some(Kind::Copy)
    } else if is(word, b"load") {
        Some(Kind::Load)
    } else if is(word, b"store") {
        Some(Kind::Store)
    } else {
        None
    }
}

/// Adds the fact that a line of these words states, if it has words.
fn put_fact<'a>(
    facts: &mut Vec<Fact<&'a [u8]>>,
    words: &[&'a [u8]],
) -> Result<Option<Expected>, AllocError>
    ensures missing { IfOk result (λ m. m ≡ missing_on (names_in words.now)) }
    ensures facts { IfOk result (λ m. map spelled facts.new.items ≡ map spelled facts.old.items ++ facts_on (names_in words.now)) }
{
    match words {
        [] => Ok(None),
        [word, names @ ..] => {
            let Some(kind) = kind_named(word) else {
                return Ok(Some(Expected::AKind));
            };
            let [left, right] = names else {
                return Ok(Some(Expected::TwoNames));
            };
            facts.push(Fact {
                kind,
                left: *left,
                right: *right,
            })?;
            Ok(None)
        }
    }
}

/// The facts that the text states.
///
/// # Errors
///
/// `Line` for the first line on which something is missing; else `Empty` where no line states a fact;
/// `Memory` where a growth was refused.
pub fn read_facts(alloc: Global, text: &[u8]) -> Result<Vec<Fact<&[u8]>>, PointFault>
    ensures accepted { IfOk result (λ _. IsAccepted text.now) }
    ensures facts { IfOk result (λ v. map spelled v.items ≡ facts_of text.now) }
    ensures refused { IfErr result (IsRefused text.now) }
{
    let lines = lines_of(alloc, text)?;
    let mut facts = Vec::new(alloc);
    let mut words = Vec::new(alloc);
    for place in 0..lines.len() {
        put_words(&mut words, lines[place])?;
        if let Some(expected) = put_fact(&mut facts, words.as_slice())? {
            return Err(PointFault::Line(place + 1, expected));
        }
    }
    if facts.is_empty() {
        return Err(PointFault::Empty);
    }
    Ok(facts)
}

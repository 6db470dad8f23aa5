ghost use Rattle.std.specs.Prelude.{◌≡◌, IfOk, map};
ghost use Rattle.lvish_explain.specs.Near.{IsNearest, IsNearName, word_meant};

use crate::known::{Known, names_of};
use crate::place::item_at;
use crate::reason::Reason;
use std::alloc::{AllocError, Global};
use strsim::generic_levenshtein;

/// The most edits between two names that are near.
const MOST_EDITS: usize = 2;

/// The name nearest to a word, of those within two edits; of several the first.
pub fn nearest<'a>(
    alloc: Global,
    word: &[u8],
    names: &[Known<'a>],
) -> Result<Option<Known<'a>>, AllocError>
    ensures { IfOk result (IsNearest word.now names.now) }
{
    let mut best = None;
    let mut least = MOST_EDITS + 1;
    for known in names {
        let edits = generic_levenshtein(alloc, known.name, word)?;
        if edits < least {
            least = edits;
            best = Some(*known);
        }
    }
    Ok(best)
}

/// The word that was meant for a name.
fn word_meant<'a>(reason: Reason, words: &[&'a [u8]], place: usize) -> &'a [u8]
    ensures { result.now ≡ word_meant reason (map (λ w. w.now) words.now) place }
{
    match reason {
        Reason::NoMain => b"main",
        _ => item_at(words, place),
    }
}

/// The declared name that is nearest to the word at a place of a line, where the reason tells what it
/// was meant for.
pub fn near_name<'a>(
    alloc: Global,
    lines: &[&'a [u8]],
    words: &[&'a [u8]],
    number: usize,
    reason: Reason,
    place: usize,
) -> Result<Option<Known<'a>>, AllocError>
    ensures { IfOk result (IsNearName reason (map (λ w. w.now) words.now) place (map (λ l. l.now) lines.now) number) }
{
    match reason.space_meant() {
        None => Ok(None),
        Some(space) => {
            let names = names_of(alloc, lines, space, number)?;
            nearest(alloc, word_meant(reason, words, place), names.as_slice())
        }
    }
}

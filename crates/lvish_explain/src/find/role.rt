//! Which names stand where in the statements of one line.

use crate::known::Space;
use crate::word::is;

/// A word that isn't a number.
fn is_name(word: &[u8]) -> bool {
    match word {
        [] => false,
        [b, ..] => b.is_ascii_alphabetic(),
    }
}

fn begins_read(word: &[u8]) -> bool {
    is(word, b"any") || is(word, b"in") || is(word, b"has") || is(word, b"least")
}

/// Whether the word at a place of a `get` line is the one that begins its read.
fn is_read(words: &[&[u8]], place: usize) -> bool {
    let Some(word) = words.get(place) else {
        return false;
    };
    if begins_read(word) {
        return true;
    }
    match words.get(place + 1) {
        Some(next) => is(word, b"total") && !begins_read(next),
        None => false,
    }
}

/// The space of a name behind `after` or `each` in a `freeze` line.
fn frozen_role(words: &[&[u8]], place: usize) -> Option<Space> {
    let before = words.get(place.saturating_sub(1))?;
    let word = words.get(place)?;
    if is(before, b"each") {
        return Some(Space::Procedure);
    }
    if is(word, b"after") || is(word, b"each") {
        return None;
    }
    Some(Space::Pool)
}

fn local_role(words: &[&[u8]], place: usize) -> Option<Space> {
    if is_name(words.get(place)?) {
        Some(Space::Local)
    } else {
        None
    }
}

fn get_role(words: &[&[u8]], place: usize) -> Option<Space> {
    if place == 2 {
        Some(Space::Variable)
    } else if is_read(words, place) {
        None
    } else {
        local_role(words, place)
    }
}

/// What the name is that stands at some place of a line.
#[derive(Clone, Copy)]
enum Role {
    Of(Space),
    Local,
    OfGet,
    OfFreeze,
}

/// A first word, from where on and up to where the names of such a line are meant, and what they are.
type Row = (&'static [u8], usize, usize, Role);

/// No line has more words.
const LAST: usize = usize::MAX;

/// The names of lines. They are data, since each case of a match would be proved.
const ROWS: [Row; 15] = [
    (b"pool", 2, 2, Role::Of(Space::Variable)),
    (b"put", 1, 1, Role::Of(Space::Variable)),
    (b"freeze", 2, 2, Role::Of(Space::Variable)),
    (b"fork", 1, 1, Role::Of(Space::Procedure)),
    (b"call", 1, 1, Role::Of(Space::Procedure)),
    (b"handle", 2, 2, Role::Of(Space::Procedure)),
    (b"handle", 1, 1, Role::Of(Space::Pool)),
    (b"put", 2, LAST, Role::Local),
    (b"fork", 2, LAST, Role::Local),
    (b"call", 2, LAST, Role::Local),
    (b"let", 2, LAST, Role::Local),
    (b"if", 1, 1, Role::Local),
    (b"while", 1, 1, Role::Local),
    (b"get", 2, LAST, Role::OfGet),
    (b"freeze", 3, LAST, Role::OfFreeze),
];

/// What the name is at a place of a line with this first word.
fn role_of(first: &[u8], place: usize) -> Option<Role> {
    for (word, from, last, role) in ROWS.as_slice() {
        if *from <= place && place <= *last && is(first, word) {
            return Some(*role);
        }
    }
    None
}

/// The space to which the name belongs that stands at a place of a line, if one stands there that the
/// line itself doesn't make.
pub fn role_at(words: &[&[u8]], place: usize) -> Option<Space> {
    match role_of(words.first()?, place)? {
        Role::Of(space) => Some(space),
        Role::Local => local_role(words, place),
        Role::OfGet => get_role(words, place),
        Role::OfFreeze => frozen_role(words, place),
    }
}

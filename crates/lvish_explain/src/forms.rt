//! The forms of lines, by their first word. They are data, since each case of a match would be proved.

use crate::known::Known;
use crate::word::is;
use std::alloc::{AllocError, Global};

/// The first words of lines, each with the forms of the lines that begin with it.
const FORMS: [(&[u8], &str); 20] = [
    (b"lvish", "the form is `lvish 2`"),
    (b"cell", "the form is `cell N`"),
    (b"set", "the form is `set N`"),
    (b"max", "the form is `max N`"),
    (b"map", "the form is `map N`"),
    (
        b"pair",
        "the form is `pair N K K`, K `cell`, `set` or `max`",
    ),
    (b"tally", "the form is `tally N`"),
    (b"pool", "the form is `pool P V`"),
    (b"proc", "the form is `proc N X..`"),
    (b"end", "the form is `end`"),
    (
        b"let",
        "the forms are `let X T` and `let X T OP T`, OP one of + - * / % < =",
    ),
    (b"put", "the forms are `put V T` and `put V T T`"),
    (
        b"get",
        "the forms are `get X V R` and `get X V T R`, R `any`, `in n..`, `has T`, `least T` or `total T`",
    ),
    (b"fork", "the form is `fork N T..`"),
    (b"call", "the form is `call N T..`"),
    (b"handle", "the form is `handle P N`"),
    (
        b"freeze",
        "the form is `freeze X V`, and then `after P..`, `each N` or both",
    ),
    (b"if", "the form is `if T`"),
    (b"else", "the form is `else`"),
    (b"while", "the form is `while T`"),
];

/// The first words of lines that declare variables, each with what such a variable takes.
const USES: [(&[u8], &str); 6] = [
    (
        b"cell",
        "declares a cell, which takes `put V T` and `get X V` with `any` or `in n..`",
    ),
    (
        b"set",
        "declares a set, which takes `put V T` and `get X V` with `has T` or `in n..`",
    ),
    (
        b"max",
        "declares a counter, which takes `put V T` and `get X V` with `least T` or `in n..`, n 0 to 1000",
    ),
    (
        b"map",
        "declares a map, which takes `put V T T` and `get X V T` with `any` or `in n..`",
    ),
    (
        b"pair",
        "declares a pair, which takes `put V n T` and `get X V n` with a read of the side n, 1 or 2",
    ),
    (
        b"tally",
        "declares a tally, which takes `put V T T`, `get X V T` with `least T` or `in n..`, and `get X V total T`",
    ),
];

/// The first words of lines, as names that no line declares.
pub fn first_words(alloc: Global) -> Result<Vec<Known<'static>>, AllocError> {
    let mut known = Vec::new(alloc);
    for (name, _forms) in FORMS.as_slice() {
        known.push(Known { name, line: 0 })?;
    }
    Ok(known)
}

/// What stands beside a word.
fn beside<'t>(rows: &[(&[u8], &'t str)], word: &[u8]) -> Option<&'t str> {
    for (of, told) in rows {
        if is(word, of) {
            return Some(told);
        }
    }
    None
}

/// The forms of the lines that begin with a word, if there are any.
pub fn forms_of(first: &[u8]) -> Option<&'static str> {
    beside(FORMS.as_slice(), first)
}

/// What a variable takes that is declared by a line with this first word.
pub fn uses_of(first: &[u8]) -> Option<&'static str> {
    beside(USES.as_slice(), first)
}

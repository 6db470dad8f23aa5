//! What the terms of a line come to.

use crate::standing::LocalText;
use lvish_syntax::Term;

/// The value of the local of this name.
fn value_named(locals: &[LocalText<'_>], name: &[u8]) -> Option<i64> {
    for local in locals {
        if local.name == name {
            return Some(local.value);
        }
    }
    None
}

/// The value of a term.
pub fn value_of(locals: &[LocalText<'_>], term: &Term) -> Option<i64> {
    match term {
        Term::Local(name) => value_named(locals, name.as_str().as_bytes()),
        Term::Number(number) => Some(*number),
    }
}

ghost use Rattle.std.specs.Prelude.{◌≡◌, IfOk, map};
ghost use Rattle.lvish_checks.specs.Form.{number_word, numbers_of, term_of, terms_of, only, simple_kind, operator_of};

use crate::word::{is, is_name, is_number_word, value_of_number};
use lvish_syntax::{Identifier, Numbers, Operator, SimpleKind, Term, Terms};
use std::alloc::{AllocError, Global};

/// The number for which a word stands, if it stands for one.
fn number_word(word: &[u8]) -> Option<i64>
    ensures { result ≡ number_word word.now }
{
    if is_number_word(word) {
        Some(value_of_number(word))
    } else {
        None
    }
}

/// A name or a number.
pub fn term_of(word: &[u8]) -> Option<Term>
    ensures { result ≡ term_of word.now }
{
    if is_number_word(word) {
        Some(Term::Number(value_of_number(word)))
    } else if is_name(word) {
        Some(Term::Local(Identifier::new(word)))
    } else {
        None
    }
}

/// Names and numbers, where each word is one.
pub fn terms_of(alloc: Global, words: &[&[u8]]) -> Result<Option<Terms>, AllocError>
    ensures { IfOk result (λ ts. ts ≡ terms_of (map (λ w. w.now) words.now)) }
{
    let mut terms = Vec::with_capacity(alloc, words.len())?;
    for word in words {
        match term_of(word) {
            Some(term) => terms.push(term)?,
            None => return Ok(None),
        }
    }
    Ok(Some(Terms::from(terms)))
}

/// Numbers, where each word stands for one.
pub fn numbers_of(alloc: Global, words: &[&[u8]]) -> Result<Option<Numbers>, AllocError>
    ensures { IfOk result (λ ns. ns ≡ numbers_of (map (λ w. w.now) words.now)) }
{
    let mut numbers = Vec::with_capacity(alloc, words.len())?;
    for word in words {
        match number_word(word) {
            Some(number) => numbers.push(number)?,
            None => return Ok(None),
        }
    }
    Ok(Some(Numbers::from(numbers)))
}

/// A name or a number in the place of one word.
pub fn only_term(words: &[&[u8]]) -> Option<Term>
    ensures { result ≡ only term_of (map (λ w. w.now) words.now) }
{
    match words {
        [word] => term_of(word),
        _ => None,
    }
}

/// `cell`, `set` or `max`.
pub fn simple_kind(word: &[u8]) -> Option<SimpleKind>
    ensures { result ≡ simple_kind word.now }
{
    if is(word, b"cell") {
        Some(SimpleKind::Cell)
    } else if is(word, b"set") {
        Some(SimpleKind::Set)
    } else if is(word, b"max") {
        Some(SimpleKind::Max)
    } else {
        None
    }
}

/// What combines two terms.
pub fn operator_of(word: &[u8]) -> Option<Operator>
    ensures { result ≡ operator_of word.now }
{
    if is(word, b"+") {
        Some(Operator::Add)
    } else if is(word, b"-") {
        Some(Operator::Subtract)
    } else if is(word, b"*") {
        Some(Operator::Multiply)
    } else if is(word, b"/") {
        Some(Operator::Divide)
    } else if is(word, b"%") {
        Some(Operator::Remainder)
    } else if is(word, b"<") {
        Some(Operator::Less)
    } else if is(word, b"=") {
        Some(Operator::Equal)
    } else {
        None
    }
}

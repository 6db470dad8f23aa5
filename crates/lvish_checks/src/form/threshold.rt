ghost use Rattle.std.specs.Prelude.{◌≡◌, ◌==◌, IfOk, length, map, Option, None, if◌then◌else◌};
ghost use Rattle.std.specs.Option.{option_map};
ghost use Rattle.lvish_syntax.specs.declared.threshold.Threshold.TheVariants.{In, Has, Least, Total};
ghost use Rattle.lvish_checks.specs.Form.{only, numbers_of, term_of, threshold_after, threshold_of};

use crate::form::term::{numbers_of, only_term};
use crate::word::is;
use lvish_syntax::Threshold;
use std::alloc::{AllocError, Global};

/// What stands after `in`: one or more numbers.
fn in_of(alloc: Global, words: &[&[u8]]) -> Result<Option<Threshold>, AllocError>
    ensures { IfOk result (λ r. r ≡ (if length (map (λ w. w.now) words.now) == 0 then None else option_map (λ zs. In zs) (numbers_of (map (λ w. w.now) words.now)))) }
{
    match words {
        [] => Ok(None),
        [_, ..] => match numbers_of(alloc, words)? {
            Some(numbers) => Ok(Some(Threshold::In(numbers))),
            None => Ok(None),
        },
    }
}

/// What stands after `has`: a term.
fn has_of(words: &[&[u8]]) -> Option<Threshold>
    ensures { result ≡ option_map (λ t. Has t) (only term_of (map (λ w. w.now) words.now)) }
{
    match only_term(words) {
        Some(term) => Some(Threshold::Has(term)),
        None => None,
    }
}

/// What stands after `least`: a term.
fn least_of(words: &[&[u8]]) -> Option<Threshold>
    ensures { result ≡ option_map (λ t. Least t) (only term_of (map (λ w. w.now) words.now)) }
{
    match only_term(words) {
        Some(term) => Some(Threshold::Least(term)),
        None => None,
    }
}

/// What stands after `total`: a term.
fn total_of(words: &[&[u8]]) -> Option<Threshold>
    ensures { result ≡ option_map (λ t. Total t) (only term_of (map (λ w. w.now) words.now)) }
{
    match only_term(words) {
        Some(term) => Some(Threshold::Total(term)),
        None => None,
    }
}

fn threshold_after(
    alloc: Global,
    word: &[u8],
    rest: &[&[u8]],
) -> Result<Option<Threshold>, AllocError>
    ensures { IfOk result (λ r. r ≡ threshold_after word.now (map (λ w. w.now) rest.now)) }
{
    if is(word, b"any") {
        match rest {
            [] => Ok(Some(Threshold::Any)),
            [_, ..] => Ok(None),
        }
    } else if is(word, b"in") {
        in_of(alloc, rest)
    } else if is(word, b"has") {
        Ok(has_of(rest))
    } else if is(word, b"least") {
        Ok(least_of(rest))
    } else if is(word, b"total") {
        Ok(total_of(rest))
    } else {
        Ok(None)
    }
}

/// What a `get` waits for.
pub fn threshold_of(alloc: Global, words: &[&[u8]]) -> Result<Option<Threshold>, AllocError>
    ensures { IfOk result (λ r. r ≡ threshold_of (map (λ w. w.now) words.now)) }
{
    match words {
        [] => Ok(None),
        [word, rest @ ..] => threshold_after(alloc, word, rest),
    }
}

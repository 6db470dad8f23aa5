//! What fits the kind of a variable.

ghost use Rattle.std.specs.Prelude.{◌≡◌, None, Some};
ghost use Rattle.std.specs.List.{list_all};
ghost use Rattle.std.specs.Ordering.{int_eq};
ghost use Rattle.lvish_syntax.specs.Sound.{kind_at, side_kind, is_level, are_of_kind, are_one, is_of_kind, is_apart, is_total_threshold, is_whole_read, is_read_of};

use lvish_base::HIGHEST_LEVEL;
use lvish_syntax::{SimpleKind, Term, Threshold, VariableKind};

/// The kind of a variable, where it is a cell, a set or a counter.
pub fn kind_of_whole(kind: VariableKind) -> Option<SimpleKind>
    ensures { result ≡ kind_at kind None }
{
    match kind {
        VariableKind::Simple(kind) => Some(kind),
        VariableKind::Map | VariableKind::Pair(_, _) | VariableKind::Tally => None,
    }
}

/// The kind of the side that a term names, which is the number 1 or 2.
fn side_kind(first: SimpleKind, second: SimpleKind, place: &Term) -> Option<SimpleKind>
    ensures { result ≡ side_kind first second place.now }
{
    match place {
        Term::Number(1) => Some(first),
        Term::Number(2) => Some(second),
        _ => None,
    }
}

/// The kind of what is at a map's key, of a pair's side, or of a tally's amount at a key, which
/// grows as a counter does.
pub fn kind_at(kind: VariableKind, place: &Term) -> Option<SimpleKind>
    ensures { result ≡ kind_at kind (Some place.now) }
{
    match kind {
        VariableKind::Simple(_) => None,
        VariableKind::Map => Some(SimpleKind::Cell),
        VariableKind::Pair(first, second) => side_kind(first, second, place),
        VariableKind::Tally => Some(SimpleKind::Max),
    }
}

fn is_level(number: i64) -> bool
    ensures { result ≡ is_level number }
{
    number >= 0 && number <= i64::from(HIGHEST_LEVEL)
}

fn are_levels(numbers: &[i64]) -> bool
    ensures { result ≡ list_all is_level numbers.now }
{
    numbers.iter().all(|number| is_level(*number))
}

/// Whether numbers are states of this kind.
fn are_of_kind(kind: SimpleKind, numbers: &[i64]) -> bool
    ensures { result ≡ are_of_kind kind numbers.now }
{
    match kind {
        SimpleKind::Max => are_levels(numbers),
        SimpleKind::Cell | SimpleKind::Set => true,
    }
}

/// Whether a threshold is one of this kind.
pub fn is_of_kind(kind: SimpleKind, threshold: &Threshold) -> bool
    ensures { result ≡ is_of_kind kind threshold.now }
{
    match threshold {
        Threshold::Any => kind == SimpleKind::Cell,
        Threshold::In(numbers) => are_of_kind(kind, numbers.as_slice()),
        Threshold::Has(_) => kind == SimpleKind::Set,
        Threshold::Least(_) => kind == SimpleKind::Max,
        Threshold::Total(_) => false,
    }
}

fn is_total(threshold: &Threshold) -> bool
    ensures { result ≡ is_total_threshold threshold.now }
{
    matches!(threshold, Threshold::Total(_))
}

/// Whether a threshold is one of a whole variable of this kind.
pub fn is_whole_read(kind: VariableKind, threshold: &Threshold) -> bool
    ensures { result ≡ is_read_of kind None threshold.now }
{
    match kind {
        VariableKind::Simple(kind) => is_of_kind(kind, threshold),
        VariableKind::Tally => is_total(threshold),
        VariableKind::Map | VariableKind::Pair(_, _) => false,
    }
}

/// Whether a threshold is one of what is at a place of a variable of this kind.
pub fn is_read_at(kind: VariableKind, place: &Term, threshold: &Threshold) -> bool
    ensures { result ≡ is_read_of kind (Some place.now) threshold.now }
{
    match kind_at(kind, place) {
        Some(kind) => is_of_kind(kind, threshold),
        None => false,
    }
}

fn are_all(number: i64, numbers: &[i64]) -> bool
    ensures { result ≡ list_all (int_eq number) numbers.now }
{
    numbers.iter().all(|other| number == *other)
}

/// Whether no two numbers differ.
fn are_one(numbers: &[i64]) -> bool
    ensures { result ≡ are_one numbers.now }
{
    match numbers {
        [] => true,
        [first, rest @ ..] => are_all(*first, rest),
    }
}

/// Whether any two different members of a threshold of this kind are incompatible.
pub fn is_apart(kind: SimpleKind, threshold: &Threshold) -> bool
    ensures { result ≡ is_apart kind threshold.now }
{
    match (kind, threshold) {
        (SimpleKind::Set | SimpleKind::Max, Threshold::In(numbers)) => are_one(numbers.as_slice()),
        _ => true,
    }
}

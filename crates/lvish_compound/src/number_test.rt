ghost use Rattle.std.specs.Prelude.{◌≡◌, ◌↔◌, Some, None, cond, find, IsTrue};
ghost use Rattle.std.specs.List.{list_all, list_any};
ghost use Rattle.std.specs.Ordering.{int_eq};
ghost use Rattle.std.specs.Set.{is_member};
ghost use Rattle.lvish_lattice.specs.declared.flat.Flat.TheVariants.{Value};
ghost use Rattle.lvish_lattice.specs.GrowSet.{items_of};
ghost use Rattle.lvish_compound.specs.Numbers.{is_level, are_levels, is_total, are_totals, cell_answer, first_that, is_reached, HasOne};

use crate::limits::HIGHEST_TOTAL;
use lvish_lattice::{GrowSet, HIGHEST_LEVEL, Items, has_one_value};

/// Which numbers are waited for: any, those of a list, or one.
///
/// The one is a value of a cell, an element that a set has, or a level that a counter, an amount or
/// a total has reached.
pub enum Test {
    Any,
    In(Items<i64>),
    At(i64),
}

// Written out, so that it is proved once, and not at each exit of a function that owns one.
impl Drop for Test {
    fn drop(self) {
        match self {
            Test::Any => {}
            Test::In(_) => {}
            Test::At(_) => {}
        }
    }
}

/// Whether a counter can hold the number.
fn is_level(number: i64) -> bool
    ensures { result ≡ is_level number }
{
    0 <= number && number <= i64::from(HIGHEST_LEVEL)
}

/// Whether a tally can have this total.
fn is_total(number: i64) -> bool
    ensures { result ≡ is_total number }
{
    0 <= number && number <= i64::from(HIGHEST_TOTAL)
}

/// Whether a counter at this level has reached the number.
fn is_reached(level: i64, number: i64) -> bool
    ensures { result ≡ is_reached level number }
{
    number <= level
}

fn are_levels(numbers: &[i64]) -> bool
    ensures { result ≡ list_all is_level numbers.now }
{
    numbers.iter().all(|number| is_level(*number))
}

fn are_totals(numbers: &[i64]) -> bool
    ensures { result ≡ list_all is_total numbers.now }
{
    numbers.iter().all(|number| is_total(*number))
}

fn is_listed(numbers: &[i64], number: i64) -> bool
    ensures { result ≡ list_any (int_eq number) numbers.now }
{
    numbers.contains(&number)
}

fn first_held(numbers: &[i64], set: &GrowSet<i64>) -> Option<i64>
    ensures { result ≡ find (is_member int_eq (items_of set.now)) numbers.now }
{
    numbers.iter().copied().find(|number| set.has(*number))
}

fn first_reached(numbers: &[i64], level: i64) -> Option<i64>
    ensures { result ≡ find (is_reached level) numbers.now }
{
    numbers
        .iter()
        .copied()
        .find(|number| is_reached(level, *number))
}

/// The value, if it passes.
fn only_if(passes: bool, value: i64) -> Option<i64>
    ensures { result ≡ cond passes (Some value) None }
{
    if passes { Some(value) } else { None }
}

impl Test {
    /// Whether a counter can hold each of the numbers.
    pub(crate) fn are_levels(&self) -> bool
        ensures { result ≡ are_levels self.now }
    {
        match self {
            Test::Any => true,
            Test::In(numbers) => are_levels(numbers.as_slice()),
            Test::At(number) => is_level(*number),
        }
    }

    /// Whether a tally can have each of the numbers as its total.
    pub(crate) fn are_totals(&self) -> bool
        ensures { result ≡ are_totals self.now }
    {
        match self {
            Test::Any => true,
            Test::In(numbers) => are_totals(numbers.as_slice()),
            Test::At(number) => is_total(*number),
        }
    }

    /// Whether at most one number is waited for.
    pub(crate) fn has_one(&self) -> bool
        ensures { IsTrue result ↔ HasOne self.now }
    {
        match self {
            Test::Any => false,
            Test::In(numbers) => has_one_value(numbers.as_slice()),
            Test::At(_) => true,
        }
    }

    /// The value of a cell, where it is waited for.
    pub(crate) fn in_cell(&self, value: i64) -> Option<i64>
        ensures { result ≡ cell_answer self.now (Value value) }
    {
        match self {
            Test::Any => Some(value),
            Test::In(numbers) => only_if(is_listed(numbers.as_slice(), value), value),
            Test::At(number) => only_if(*number == value, value),
        }
    }

    /// The first of the listed numbers that the set has.
    // Apart, so that reads of other places save no registers for its searches.
    #[inline(never)]
    pub(crate) fn in_set(&self, set: &GrowSet<i64>) -> Option<i64>
        ensures { result ≡ first_that (is_member int_eq (items_of set.now)) self.now }
    {
        match self {
            Test::Any => None,
            Test::In(numbers) => first_held(numbers.as_slice(), set),
            Test::At(number) => only_if(set.has(*number), *number),
        }
    }

    /// The first of the listed numbers that a counter at this level has reached.
    pub(crate) fn in_max(&self, level: i64) -> Option<i64>
        ensures { result ≡ first_that (is_reached level) self.now }
    {
        match self {
            Test::Any => None,
            Test::In(numbers) => first_reached(numbers.as_slice(), level),
            Test::At(number) => only_if(is_reached(level, *number), *number),
        }
    }
}

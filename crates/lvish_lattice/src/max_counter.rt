ghost use Rattle.std.specs.Prelude.{◌≡◌, ◌↔◌, ◌≤◌, ◌-◌, ◌+◌, IfOk, IsOk, pos, ◌≤ℤ◌, map};
ghost use Rattle.std.specs.List.{range_with_len};
ghost use Rattle.lvish_base.specs.declared.limits.TheConstants.{HIGHEST_LEVEL};

use crate::brought::Brought;
use crate::lattice::{Lattice, Plain, Reads};
use crate::reads::{has_one_value, one_of};
use lvish_base::{HIGHEST_LEVEL, Items};
use std::alloc::{AllocError, Global};
use thiserror::Error;

/// A number from 0 to `HIGHEST_LEVEL` that only grows.
#[derive(Clone, Copy, Debug, PartialEq, Eq, PartialOrd, Ord)]
pub struct MaxCounter {
    value: u16,
    ghost bounded: { value ≤ HIGHEST_LEVEL },
}

/// The refusal of a number that no counter holds.
#[derive(Clone, Copy, Debug, PartialEq, Eq, Error)]
#[error("a counter's number is from 0 to 1000")]
pub struct Range;

/// What is waited for: one of a list of levels.
#[derive(Drop)]
pub enum Levels {
    In(Items<MaxCounter>),
}

impl Levels {
    ghost use Rattle.lvish_lattice.specs.MaxCounter.{listed};

    /// The levels that are waited for, as they were listed.
    pub fn listed(&self) -> &[MaxCounter]
        ensures { result.now ≡ listed self.now }
    {
        let Levels::In(items) = self;
        items.as_slice()
    }
}

impl MaxCounter {
    ghost use Rattle.lvish_lattice.specs.MaxCounter.{number_of};

    /// The counter that holds the number, where it is from 0 to `HIGHEST_LEVEL`.
    pub fn new(number: i64) -> Result<MaxCounter, Range>
        ensures ok { IfOk result (λ c. number_of c ≡ number) }
        ensures accepts { IsOk result ↔ ((pos 0 ≤ℤ number) × (number ≤ℤ pos HIGHEST_LEVEL)) }
    {
        if number < 0 || number > i64::from(HIGHEST_LEVEL) {
            return Err(Range);
        }
        Ok(MaxCounter {
            value: number as u16,
        })
    }

    /// The number.
    pub fn get(&self) -> i64
        ensures { result ≡ number_of self.now }
    {
        i64::from(self.value)
    }
}

/// The numbers above `low`, up to `high`.
fn between(alloc: Global, low: u16, high: u16) -> Result<Vec<i64>, AllocError>
    ensures { IfOk result (λ v. v.items ≡ map pos (range_with_len (low + 1) (high - low))) }
{
    let mut numbers = Vec::new(alloc);
    for n in low..high {
        numbers.push(i64::from(n) + 1)?;
    }
    Ok(numbers)
}

impl Plain for MaxCounter {
    ghost use Rattle.std.specs.Prelude.{refl};
    ghost use Rattle.lvish_lattice.specs.laws.MaxCounterLaws.{counters_identical};

    ghost identical = { counters_identical _ (λ a b. refl) };
}

impl Lattice for MaxCounter {
    ghost use Rattle.lvish_lattice.specs.MaxCounter.{zero, joined, events_of};

    type Event = i64;

    ghost least = { zero };

    ghost joined = { joined };

    ghost events_of = { events_of };

    fn bottom(_alloc: Global) -> MaxCounter {
        MaxCounter { value: 0 }
    }

    fn join(&self, _alloc: Global, other: &MaxCounter) -> Result<Option<MaxCounter>, AllocError> {
        Ok(Some(if self.value <= other.value {
            *other
        } else {
            *self
        }))
    }

    fn leq(&self, other: &MaxCounter) -> bool {
        self.value <= other.value
    }

    fn events(&self, alloc: Global) -> Result<Vec<i64>, AllocError> {
        between(alloc, 0, self.value)
    }

    fn fresh(alloc: Global, old: &MaxCounter, put: &MaxCounter) -> Result<Vec<i64>, AllocError> {
        between(alloc, old.value, put.value)
    }

    fn merge_one(&mut self, _alloc: Global, put: &MaxCounter) -> Result<Brought<i64>, AllocError> {
        if put.value <= self.value {
            return Ok(Brought::Nothing);
        }
        if put.value == self.value + 1 {
            *self = *put;
            return Ok(Brought::One(i64::from(put.value)));
        }
        Ok(Brought::Listed)
    }

    fn copy(&self, _alloc: Global) -> Result<MaxCounter, AllocError> {
        Ok(*self)
    }

    ghost use Rattle.std.specs.Prelude.{refl};
    ghost use Rattle.lvish_lattice.specs.laws.MaxCounterLaws.{counters_identical, counters_are_join, counters_have_events};

    ghost identical = { counters_identical _ (λ a b. refl) };

    ghost is_join = { counters_are_join };

    ghost has_events = { counters_have_events };
}

impl Reads for MaxCounter {
    ghost use Rattle.std.specs.Prelude.{refl};
    ghost use Rattle.lvish_lattice.specs.MaxCounter.{Member, answer_of, spot_of, watched};
    ghost use Rattle.lvish_lattice.specs.laws.MaxCounterLaws.{counters_identical, counters_answer, counters_wait};

    type Read = Levels;

    type Answer = i64;

    type Spot = i64;

    ghost member = { Member };

    ghost answer_of = { answer_of };

    ghost spot_of = { spot_of };

    ghost watched = { watched ⟦<MaxCounter as PartialEq>⟧.eq };

    fn check(read: &Levels) -> bool {
        has_one_value(read.listed())
    }

    fn trigger(read: &Levels, state: &MaxCounter) -> Option<i64> {
        let reached = read
            .listed()
            .iter()
            .find(|level| level.value <= state.value)?;
        Some(reached.get())
    }

    fn spot(event: &i64) -> i64 {
        *event
    }

    fn watch(read: &Levels) -> Option<i64> {
        match one_of(read.listed()) {
            Some(level) => Some(level.get()),
            None => None,
        }
    }

    ghost waits = { counters_wait ⟦<MaxCounter as PartialEq>⟧.eq (counters_identical _ (λ a b. refl)) };

    ghost answers = { counters_answer };
}

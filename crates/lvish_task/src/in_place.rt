ghost use Rattle.std.specs.Prelude.{◌≡◌, ◌<◌, ◌≤◌, ◌++◌, ◌∷◌, ◌-◌, [], length, replicate, pos};
ghost use Rattle.std.specs.List.{slice_index_or, slice_set};
ghost use Rattle.lvish_task.specs.Jumps.{AllLand};
ghost use Rattle.lvish_task.specs.Stride.{KeepsAsking};

use crate::limits::IN_PLACE;
use crate::stride::{Progress, strides};
use lvish_code::Instruction;
use std::marker::Model;

/// A few numbers in order, with no memory of their own.
pub struct InPlace {
    count: usize,
    numbers: [i64; IN_PLACE],
}

// Written out, so that it is proved once, and not at each exit of a function that owns one.
impl Drop for InPlace {
    #[inline(always)]
    fn drop(self) {
        let InPlace {
            count: _,
            numbers: _,
        } = self;
    }
}

impl Model for InPlace {
    ghost use Rattle.std.specs.Prelude.{List, ℤ, pos, ◌≡◌, ◌≤◌, ◌-◌, take, drop, replicate};
    ghost use Rattle.lvish_task.specs.declared.limits.TheConstants.{IN_PLACE};

    ghost Value = { List ℤ };

    ghost view = { λ p. take p.count p.numbers };

    ghost invariant = { λ p. (p.count ≤ IN_PLACE) × (drop p.count p.numbers ≡ replicate (IN_PLACE - p.count) (pos 0)) };
}

/// The value of a local, 0 where there is no such local.
#[inline(always)]
pub(crate) fn value_at(values: &[i64], local: usize) -> i64
    ensures { result ≡ slice_index_or values.now local (pos 0) }
{
    match values.get(local) {
        Some(value) => *value,
        None => 0,
    }
}

/// Gives a local a value; nothing where there is no such local.
#[inline(always)]
pub(crate) fn give(values: &mut [i64], local: usize, value: i64)
    ensures { values.new ≡ slice_set values.old local value }
{
    if local < values.len() {
        values[local] = value;
    }
}

impl InPlace {
    /// No numbers.
    #[inline(always)]
    pub fn new() -> InPlace
        ensures { result ≡ [] }
    {
        InPlace {
            count: 0,
            numbers: [0; IN_PLACE],
        }
    }

    /// Two numbers.
    #[inline(always)]
    pub fn two(first: i64, second: i64) -> InPlace
        ensures { result ≡ first ∷ second ∷ [] }
    {
        InPlace {
            count: 2,
            numbers: [first, second, 0, 0, 0, 0],
        }
    }

    /// The same numbers.
    #[inline(always)]
    pub fn copy(&self) -> InPlace
        ensures { result ≡ self.now }
    {
        InPlace {
            count: self.count,
            numbers: self.numbers,
        }
    }

    /// Becomes equal to the other.
    #[inline(always)]
    pub fn copy_from(&mut self, other: &InPlace)
        ensures { self.new ≡ other.now }
    {
        self.count = other.count;
        self.numbers = other.numbers;
    }

    /// How many there are.
    #[inline(always)]
    pub fn len(&self) -> usize
        ensures count { result ≡ length self.now }
        ensures few { result ≤ IN_PLACE }
    {
        self.count
    }

    /// The numbers as a slice.
    #[inline(always)]
    pub fn as_slice(&self) -> &[i64]
        ensures { result.now ≡ self.now }
    {
        &self.numbers[..self.count]
    }

    /// One more number behind the others, where there is room for it.
    #[inline(always)]
    pub fn push(&mut self, number: i64)
        requires { length self.old < IN_PLACE }
        ensures { self.new ≡ self.old ++ number ∷ [] }
    {
        self.numbers[self.count] = number;
        self.count += 1;
    }

    /// These numbers, and zeros after them, `count` in all.
    #[inline(always)]
    pub fn filled(self, count: usize) -> InPlace
        requires more { length self ≤ count }
        requires few { count ≤ IN_PLACE }
        ensures { result ≡ self ++ replicate (count - length self) (pos 0) }
    {
        let InPlace { count: _, numbers } = self;
        InPlace { count, numbers }
    }

    /// Gives a local a value; nothing where there is no such local.
    #[inline(always)]
    pub fn set(&mut self, local: usize, value: i64)
        ensures { self.new ≡ slice_set self.old local value }
    {
        give(&mut self.numbers[..self.count], local, value);
    }

    /// Takes statements of a frame with these values, as [`strides`] does.
    #[inline(always)]
    pub fn stride(&mut self, instructions: &[Instruction], from: Progress) -> Progress
        requires { AllLand instructions.now }
        ensures same { KeepsAsking instructions.now from self.old result self.new }
        ensures fewer { result.left ≤ from.left }
    {
        strides(instructions, &mut self.numbers[..self.count], from)
    }
}

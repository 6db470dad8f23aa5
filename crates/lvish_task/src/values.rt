ghost use Rattle.std.specs.Prelude.{◌≡◌, IfOk, OnOk, IfSome, ◌++◌, replicate, length, pos, ◌-◌, ◌≤◌};
ghost use Rattle.std.specs.List.{slice_index_or, slice_set};
ghost use Rattle.std.specs.Ordering.{int_eq};
ghost use Rattle.std.specs.Cmp.Lexicographic.{pointwise};
ghost use Rattle.lvish_task.specs.Jumps.{AllLand};
ghost use Rattle.lvish_task.specs.Stride.{KeepsAsking};
ghost use Rattle.lvish_task.specs.Numbers.{numbers_in};
ghost use Rattle.lvish_task.specs.Run.{expression_value, operand_value};

use crate::equal::are_equal;
use crate::evaluate::evaluate;
use crate::in_place::{InPlace, give, value_at};
use crate::limits::{IN_PLACE, MOST_COPIED};
use crate::shared_numbers::SharedNumbers;
use crate::stride::{Progress, strides_apart};
use lvish_calculus::ErrorKind;
use lvish_code::{Expression, Instruction, Operand};
use std::alloc::{AllocError, Global};
use std::marker::Model;

/// Numbers in order: a few of them in place, many in memory of their own, or so many that copies
/// share them.
pub enum Numbers {
    Few(InPlace),
    Many(Vec<i64>),
    Shared(SharedNumbers),
}

// Written out, so that it is proved once, and not at each exit of a function that owns one.
impl Drop for Numbers {
    #[inline(always)]
    fn drop(self) {
        match self {
            Numbers::Few(_) => {}
            Numbers::Many(_) => {}
            Numbers::Shared(_) => {}
        }
    }
}

/// The values of locals, by number.
pub struct Values {
    numbers: Numbers,
}

// Written out, so that it is proved once, and not at each exit of a function that owns one.
impl Drop for Values {
    #[inline(always)]
    fn drop(self) {
        let Values { numbers: _ } = self;
    }
}

impl Model for Values {
    ghost use Rattle.std.specs.Prelude.{List, ℤ};
    ghost use Rattle.lvish_task.specs.Numbers.{numbers_in};

    ghost Value = { List ℤ };

    ghost view = { λ v. numbers_in v.numbers };
}

impl PartialEq for Values {
    ghost use Rattle.std.specs.Ordering.{int_eq};
    ghost use Rattle.std.specs.Cmp.{int_eq_equiv, partial_equiv_from_equiv};
    ghost use Rattle.std.specs.Cmp.Lexicographic.{lists_equiv, pointwise};

    ghost eq = { pointwise int_eq };

    ghost laws = { partial_equiv_from_equiv (lists_equiv int_eq_equiv) };

    #[inline(always)]
    fn eq(&self, other: &Values) -> bool {
        match (self.plain(), other.plain()) {
            (Some(own), Some(others)) => are_equal(own, others),
            _ => self.is_equal(other),
        }
    }
}

impl Eq for Values {
    ghost use Rattle.std.specs.Cmp.{int_eq_equiv};
    ghost use Rattle.std.specs.Cmp.Lexicographic.{lists_equiv};

    ghost laws = { lists_equiv int_eq_equiv };
}

/// The same numbers, in memory of their own, which has room for this many.
///
/// It isn't inlined, so that a copy of a few numbers doesn't pay for it.
#[inline(never)]
fn many(alloc: Global, numbers: &[i64], room: usize) -> Result<Vec<i64>, AllocError>
    ensures { IfOk result (λ v. v.items ≡ numbers.now) }
{
    let mut many = Vec::with_capacity(alloc, room)?;
    many.extend_from_slice(numbers)?;
    Ok(many)
}

/// These numbers and zeros after them, `count` in all, in memory of their own.
#[inline(never)]
fn spread(alloc: Global, numbers: &[i64], count: usize) -> Result<Vec<i64>, AllocError>
    requires { length numbers.now ≤ count }
    ensures { IfOk result (λ v. v.items ≡ numbers.now ++ replicate (count - length numbers.now) (pos 0)) }
{
    let mut more = many(alloc, numbers, count)?;
    more.resize(count, 0)?;
    Ok(more)
}

impl Numbers {
    /// These many numbers.
    fn of(alloc: Global, numbers: Vec<i64>) -> Result<Numbers, AllocError>
        ensures { IfOk result (λ n. numbers_in n ≡ numbers.items) }
    {
        if numbers.len() <= MOST_COPIED {
            return Ok(Numbers::Many(numbers));
        }
        Ok(Numbers::Shared(SharedNumbers::new(alloc, numbers)?))
    }

    /// These numbers, and zeros after them, `count` in all.
    #[inline(always)]
    fn filled(self, alloc: Global, count: usize) -> Result<Numbers, AllocError>
        requires { length (numbers_in self) ≤ count }
        ensures { IfOk result (λ n. numbers_in n ≡ numbers_in self ++ replicate (count - length (numbers_in self)) (pos 0)) }
    {
        match self {
            Numbers::Few(few) => {
                if count <= IN_PLACE {
                    return Ok(Numbers::Few(few.filled(count)));
                }
                // Moved here, so that the other way has them in no memory that a call could see.
                let few = few;
                Numbers::of(alloc, spread(alloc, few.as_slice(), count)?)
            }
            Numbers::Many(mut numbers) => {
                numbers.resize(count, 0)?;
                Numbers::of(alloc, numbers)
            }
            Numbers::Shared(shared) => {
                let mut numbers = shared.flat(alloc)?;
                numbers.resize(count, 0)?;
                Numbers::of(alloc, numbers)
            }
        }
    }

    /// The same numbers.
    #[inline(always)]
    fn copy(&self, alloc: Global) -> Result<Numbers, AllocError>
        ensures { IfOk result (λ n. numbers_in n ≡ numbers_in self.now) }
    {
        match self {
            Numbers::Few(few) => Ok(Numbers::Few(few.copy())),
            Numbers::Many(numbers) => {
                let numbers = numbers.as_slice();
                Ok(Numbers::Many(many(alloc, numbers, numbers.len())?))
            }
            Numbers::Shared(shared) => Ok(Numbers::Shared(shared.copy(alloc)?)),
        }
    }
}

impl Values {
    /// Becomes equal to the other: without memory, where both hold few numbers.
    ///
    /// # Errors
    ///
    /// Where there is no room for it.
    #[inline(always)]
    pub fn copy_from(&mut self, alloc: Global, other: &Values) -> Result<(), AllocError>
        ensures { OnOk result (self.new ≡ other.now) }
    {
        match (&mut self.numbers, &other.numbers) {
            (Numbers::Few(own), Numbers::Few(few)) => {
                own.copy_from(few);
                Ok(())
            }
            _ => self.copy_from_many(alloc, other),
        }
    }

    /// Becomes equal to the other, in its own memory where that is as large.
    ///
    /// It isn't inlined, so that a few numbers don't pay for it.
    #[inline(never)]
    fn copy_from_many(&mut self, alloc: Global, other: &Values) -> Result<(), AllocError>
        ensures { OnOk result (self.new ≡ other.now) }
    {
        match (&mut self.numbers, &other.numbers) {
            (Numbers::Many(own), Numbers::Many(numbers)) if own.len() == numbers.len() => {
                own.as_mut_slice().copy_from_slice(numbers.as_slice());
            }
            (Numbers::Shared(own), Numbers::Shared(shared)) => own.copy_from(shared)?,
            _ => self.numbers = other.numbers.copy(alloc)?,
        }
        Ok(())
    }

    /// These few values.
    #[inline(always)]
    pub fn few(values: InPlace) -> Values
        ensures { result ≡ values }
    {
        Values {
            numbers: Numbers::Few(values),
        }
    }

    /// These many values.
    pub fn many(values: Vec<i64>) -> Values
        ensures { result ≡ values.items }
    {
        Values {
            numbers: Numbers::Many(values),
        }
    }

    /// These values, and zeros after them, `count` in all.
    #[inline(always)]
    pub fn filled(self, alloc: Global, count: usize) -> Result<Values, AllocError>
        requires { length self ≤ count }
        ensures { IfOk result (λ v. v ≡ self ++ replicate (count - length self) (pos 0)) }
    {
        let Values { numbers } = self;
        Ok(Values {
            numbers: numbers.filled(alloc, count)?,
        })
    }

    /// How many there are.
    #[inline(always)]
    pub fn len(&self) -> usize
        ensures { result ≡ length self.now }
    {
        match &self.numbers {
            Numbers::Few(few) => few.len(),
            Numbers::Many(numbers) => numbers.len(),
            Numbers::Shared(shared) => shared.len(),
        }
    }

    /// The values as a slice, where they aren't shared.
    #[inline(always)]
    fn plain(&self) -> Option<&[i64]>
        ensures { IfSome result (λ s. s.now ≡ self.now) }
    {
        match &self.numbers {
            Numbers::Few(few) => Some(few.as_slice()),
            Numbers::Many(numbers) => Some(numbers.as_slice()),
            Numbers::Shared(_) => None,
        }
    }

    /// The value of a local, 0 where there is none.
    #[inline(always)]
    pub fn value(&self, local: usize) -> i64
        ensures { result ≡ slice_index_or self.now local (pos 0) }
    {
        match &self.numbers {
            Numbers::Few(few) => value_at(few.as_slice(), local),
            Numbers::Many(numbers) => value_at(numbers.as_slice(), local),
            Numbers::Shared(shared) => shared.value(local),
        }
    }

    /// The value of an operand.
    #[inline(always)]
    pub fn operand(&self, operand: Operand) -> i64
        ensures { result ≡ operand_value self.now operand }
    {
        match operand {
            Operand::Local(local) => self.value(local),
            Operand::Number(n) => n,
        }
    }

    /// What a `let` gives its local, or how it fails.
    pub fn evaluate(&self, expression: &Expression) -> Result<i64, ErrorKind>
        ensures { result ≡ expression_value self.now expression.now }
    {
        match &self.numbers {
            Numbers::Few(few) => evaluate(few.as_slice(), expression),
            Numbers::Many(numbers) => evaluate(numbers.as_slice(), expression),
            Numbers::Shared(shared) => shared.evaluate(expression),
        }
    }

    /// Whether the other has equal values.
    ///
    /// It isn't inlined, since local states are seldom compared whose numbers are shared.
    #[inline(never)]
    fn is_equal(&self, other: &Values) -> bool
        ensures { result ≡ pointwise int_eq self.now other.now }
    {
        if self.len() != other.len() {
            return false;
        }
        let mut same = true;
        for local in 0..self.len() {
            let here = self.value(local) == other.value(local);
            same = here && same;
        }
        same
    }

    /// Gives a local a value; nothing where there is no such local.
    ///
    /// # Errors
    ///
    /// Where there is no room for it.
    #[inline(always)]
    pub fn set(&mut self, alloc: Global, local: usize, value: i64) -> Result<(), AllocError>
        ensures { OnOk result (self.new ≡ slice_set self.old local value) }
    {
        match &mut self.numbers {
            Numbers::Few(few) => few.set(local, value),
            Numbers::Many(numbers) => give(numbers.as_mut_slice(), local, value),
            Numbers::Shared(shared) => shared.set(alloc, local, value)?,
        }
        Ok(())
    }

    /// Makes its own what copies share.
    ///
    /// # Errors
    ///
    /// Where there is no room for it.
    #[inline(always)]
    pub fn own(&mut self, alloc: Global) -> Result<(), AllocError>
        ensures { OnOk result (self.new ≡ self.old) }
    {
        match &mut self.numbers {
            Numbers::Shared(shared) => shared.own(alloc),
            _ => Ok(()),
        }
    }

    /// Takes statements of a frame with these values, as [`strides_apart`] does, or some of them.
    #[inline(always)]
    pub(crate) fn stride(&mut self, instructions: &[Instruction], from: Progress) -> Progress
        requires { AllLand instructions.now }
        ensures same { KeepsAsking instructions.now from self.old result self.new }
        ensures fewer { result.left ≤ from.left }
    {
        match &mut self.numbers {
            Numbers::Few(few) => few.stride(instructions, from),
            Numbers::Many(numbers) => strides_apart(instructions, numbers.as_mut_slice(), from),
            Numbers::Shared(shared) => shared.stride(instructions, from),
        }
    }

    /// Equal values.
    #[inline(always)]
    pub fn copy(&self, alloc: Global) -> Result<Values, AllocError>
        ensures { IfOk result (λ v. v ≡ self.now) }
    {
        Ok(Values {
            numbers: self.numbers.copy(alloc)?,
        })
    }
}

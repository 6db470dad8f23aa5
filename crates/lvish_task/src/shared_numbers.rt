ghost use Rattle.std.specs.Prelude.{◌≡◌, ◌≤◌, IfOk, OnOk, length, if◌then◌else◌, nat_eq, List, ℤ, pos};
ghost use Rattle.std.specs.List.{slice_index_or, slice_set};
ghost use Rattle.lvish_task.specs.Changes.{changed};
ghost use Rattle.lvish_task.specs.Jumps.{AllLand};
ghost use Rattle.lvish_task.specs.Run.{expression_value, operand_value};
ghost use Rattle.lvish_task.specs.Stride.{KeepsAsking};

use crate::arithmetic::combine;
use crate::beside::strides_beside;
use crate::in_place::give;
use crate::limits::MOST_CHANGES;
use crate::stride::{Progress, strides_apart};
use lvish_calculus::ErrorKind;
use lvish_code::{Expression, Instruction, Operand};
use std::alloc::{AllocError, Global};
use std::marker::Model;
use std::sync::Arc;

/// A local and the value that it has in place of the shared one.
#[derive(Clone, Copy)]
pub struct Change {
    pub local: usize,
    pub value: i64,
}

/// Many numbers in order: a list that copies share, and the few changes that are made to it here.
pub struct SharedNumbers {
    base: Arc<Vec<i64>>,
    changes: Vec<Change>,
}

// Written out, so that it is proved once, and not at each exit of a function that owns one.
impl Drop for SharedNumbers {
    fn drop(self) {
        let SharedNumbers {
            base: _,
            changes: _,
        } = self;
    }
}

impl Model for SharedNumbers {
    ghost use Rattle.std.specs.Prelude.{List, ℤ};
    ghost use Rattle.std.specs.Arc.{arc_value};
    ghost use Rattle.lvish_task.specs.Changes.{changed};

    ghost Value = { List ℤ };

    ghost view = { λ s. changed (arc_value s.base).items s.changes.items };
}

/// Makes a change.
fn make(numbers: &mut [i64], change: Change)
    ensures { numbers.new ≡ slice_set numbers.old change.local change.value }
{
    give(numbers, change.local, change.value);
}

/// Makes changes, one after the other.
fn give_all(numbers: &mut [i64], changes: &[Change])
    ensures { numbers.new ≡ changed numbers.old changes.now }
{
    for change in changes {
        make(numbers, *change);
    }
}

/// The value of a local after one more change.
#[inline(always)]
fn later(change: Change, local: usize, value: i64) -> i64
    ensures { result ≡ (if nat_eq change.local local then change.value else value) }
{
    if change.local == local {
        return change.value;
    }
    value
}

/// The value of a local after changes, 0 where there is no such local.
#[inline(always)]
fn value_after(numbers: &[i64], changes: &[Change], local: usize) -> i64
    ensures { result ≡ slice_index_or (changed numbers.now changes.now) local (pos 0) }
{
    if local >= numbers.len() {
        return 0;
    }
    let mut value = numbers[local];
    for change in changes {
        value = later(*change, local, value);
    }
    value
}

/// Puts a change in the place of the last one of the same local, and answers whether there is one.
fn change_again(changes: &mut [Change], change: Change) -> bool
    ensures { (numbers : List ℤ) → changed numbers changes.new ≡ (if result then slice_set (changed numbers changes.old) change.local change.value else changed numbers changes.old) }
{
    let mut place = changes.len();
    while place > 0 {
        place -= 1;
        if changes[place].local == change.local {
            changes[place] = change;
            return true;
        }
    }
    false
}

/// One more change behind the others, and whether there is room for it. If not, nothing is changed.
fn add(changes: &mut Vec<Change>, change: Change) -> bool
    ensures { (numbers : List ℤ) → changed numbers changes.new.items ≡ (if result then slice_set (changed numbers changes.old.items) change.local change.value else changed numbers changes.old.items) }
{
    changes.push(change).is_ok()
}

impl SharedNumbers {
    /// These numbers.
    pub fn new(alloc: Global, numbers: Vec<i64>) -> Result<SharedNumbers, AllocError>
        ensures { IfOk result (λ s. s ≡ numbers.items) }
    {
        Ok(SharedNumbers {
            base: Arc::new(alloc, numbers)?,
            changes: Vec::with_capacity(alloc, MOST_CHANGES)?,
        })
    }

    /// How many there are.
    #[inline(always)]
    #[tactic(auto, using(crate::proofs::Changes::length_changed))]
    pub fn len(&self) -> usize
        ensures { result ≡ length self.now }
    {
        self.base.len()
    }

    /// The value of a local, 0 where there is no such local.
    #[inline(always)]
    pub fn value(&self, local: usize) -> i64
        ensures { result ≡ slice_index_or self.now local (pos 0) }
    {
        value_after(self.base.as_slice(), self.changes.as_slice(), local)
    }

    /// The value of an operand.
    #[inline(always)]
    pub fn operand(&self, operand: Operand) -> i64
        ensures { result ≡ operand_value self.now operand }
    {
        match operand {
            Operand::Local(local) => self.value(local),
            Operand::Number(n) => n,
        }
    }

    /// What a `let` gives its local, or how it fails.
    #[inline(always)]
    pub fn evaluate(&self, expression: &Expression) -> Result<i64, ErrorKind>
        ensures { result ≡ expression_value self.now expression.now }
    {
        match expression {
            Expression::Same(operand) => Ok(self.operand(*operand)),
            Expression::Combined(left, operator, right) => {
                combine(*operator, self.operand(*left), self.operand(*right))
            }
        }
    }

    /// The same numbers, in memory of their own.
    pub fn flat(&self, alloc: Global) -> Result<Vec<i64>, AllocError>
        ensures { IfOk result (λ v. v.items ≡ self.now) }
    {
        let mut numbers = Vec::with_capacity(alloc, self.len())?;
        numbers.extend_from_slice(self.base.as_slice())?;
        give_all(numbers.as_mut_slice(), self.changes.as_slice());
        Ok(numbers)
    }

    /// Makes the list its own, which no copy shares, with the changes in it.
    ///
    /// # Errors
    ///
    /// Where there is no room for it.
    #[inline(never)]
    pub fn own(&mut self, alloc: Global) -> Result<(), AllocError>
        ensures { OnOk result (self.new ≡ self.old) }
    {
        match Arc::get_mut(&mut self.base) {
            Some(base) => give_all(base.as_mut_slice(), self.changes.as_slice()),
            None => self.base = Arc::new(alloc, self.flat(alloc)?)?,
        }
        self.changes.clear();
        Ok(())
    }

    /// Gives a local a value as a change, and answers whether there was room for it. If not, nothing
    /// is changed.
    pub fn change(&mut self, local: usize, value: i64) -> bool
        ensures { self.new ≡ (if result then slice_set self.old local value else self.old) }
    {
        let change = Change { local, value };
        if change_again(self.changes.as_mut_slice(), change) {
            return true;
        }
        self.changes.len() < MOST_CHANGES && add(&mut self.changes, change)
    }

    /// Gives a local a value; nothing where there is no such local.
    ///
    /// # Errors
    ///
    /// Where there is no room for it.
    #[inline(never)]
    pub fn set(&mut self, alloc: Global, local: usize, value: i64) -> Result<(), AllocError>
        ensures { OnOk result (self.new ≡ slice_set self.old local value) }
    {
        if self.change(local, value) {
            return Ok(());
        }
        self.own(alloc)?;
        if self.change(local, value) {
            return Ok(());
        }
        Err(AllocError)
    }

    /// Takes statements of a frame with these values: in the list itself where no copy shares it, and
    /// else some of them beside it.
    ///
    /// It isn't inlined, so that other numbers don't pay for it.
    #[inline(never)]
    pub(crate) fn stride(&mut self, instructions: &[Instruction], from: Progress) -> Progress
        requires { AllLand instructions.now }
        ensures same { KeepsAsking instructions.now from self.old result self.new }
        ensures fewer { result.left ≤ from.left }
    {
        match Arc::get_mut(&mut self.base) {
            Some(base) => {
                give_all(base.as_mut_slice(), self.changes.as_slice());
                self.changes.clear();
                strides_apart(instructions, base.as_mut_slice(), from)
            }
            None => strides_beside(instructions, self, from),
        }
    }

    /// Becomes equal to the other, with which it shares the list.
    ///
    /// # Errors
    ///
    /// Where there is no room for the changes, or more share the list than can be counted.
    pub fn copy_from(&mut self, other: &SharedNumbers) -> Result<(), AllocError>
        ensures { OnOk result (self.new ≡ other.now) }
    {
        self.base = other.base.clone()?;
        self.changes.clear();
        self.changes.extend_from_slice(other.changes.as_slice())
    }

    /// Equal numbers, which share the list.
    ///
    /// # Errors
    ///
    /// Where there is no room for the changes, or more share the list than can be counted.
    pub fn copy(&self, alloc: Global) -> Result<SharedNumbers, AllocError>
        ensures { IfOk result (λ s. s ≡ self.now) }
    {
        let base = self.base.clone()?;
        let mut changes = Vec::with_capacity(alloc, MOST_CHANGES)?;
        changes.extend_from_slice(self.changes.as_slice())?;
        Ok(SharedNumbers { base, changes })
    }
}

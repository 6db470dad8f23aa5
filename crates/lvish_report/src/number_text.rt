//! Numbers and names of tasks, written at the end of a text.

ghost use Rattle.std.specs.Prelude.{◌≡◌, ◌++◌, ◌∷◌, [], ◌<◌, ◌+◌, OnOk, codes, decimal, string_bytes};
ghost use Rattle.std.specs.Fmt.{signed_decimal};
ghost use Rattle.lvish_names.specs.NameText.{name_text, part_text};

use itoa::{Buffer, Integer};
use lvish_lattice::Numbered;
use lvish_names::{NamePart, Parts, TaskName};
use std::alloc::AllocError;

/// Adds a digit.
#[inline(always)]
fn push_digit(text: &mut String, digit: u64) -> Result<(), AllocError>
    requires { digit < 10 }
    ensures { OnOk result (string_bytes text.new ≡ string_bytes text.old ++ (48 + digit) ∷ []) }
{
    text.push((b'0' + digit as u8) as char)
}

/// Adds the decimal digits of a number that has two at most.
#[tactic(auto, using(crate::proofs::Digits::one_digit, crate::proofs::Digits::two_digits))]
#[inline(always)]
fn push_two(text: &mut String, number: u64) -> Result<(), AllocError>
    requires { number < 100 }
    ensures { OnOk result (string_bytes text.new ≡ string_bytes text.old ++ decimal number) }
{
    if number < 10 {
        return push_digit(text, number);
    }
    push_digit(text, number / 10)?;
    push_digit(text, number % 10)
}

/// Adds the decimal digits of a number that has four at most.
#[tactic(auto, using(crate::proofs::Digits::four_digits))]
fn push_four(text: &mut String, number: u64) -> Result<(), AllocError>
    requires { number < 10000 }
    ensures { OnOk result (string_bytes text.new ≡ string_bytes text.old ++ decimal number) }
{
    if number < 100 {
        return push_two(text, number);
    }
    push_two(text, number / 100)?;
    push_digit(text, number / 10 % 10)?;
    push_digit(text, number % 10)
}

/// Adds the text of an integer of any length.
#[inline(never)]
fn push_long<I: Integer>(text: &mut String, number: I) -> Result<(), AllocError>
    ensures { OnOk result (string_bytes text.new ≡ string_bytes text.old ++ I.text number) }
{
    let mut digits = Buffer::new();
    text.push_str(digits.format(number))
}

/// Adds a number's decimal digits, after a minus sign where it is negative.
pub(crate) fn push_number(text: &mut String, number: i64) -> Result<(), AllocError>
    ensures { OnOk result (string_bytes text.new ≡ string_bytes text.old ++ signed_decimal number) }
{
    // (most numbers are short, and are written with no buffer between)
    if 0 <= number && number < 10000 {
        return push_four(text, number as u64);
    }
    push_long(text, number)
}

/// Adds a fork's part of a name, after a slash.
#[tactic(auto, using(crate::proofs::Digits::one_digit))]
#[inline(always)]
fn push_fork(text: &mut String, number: u64) -> Result<(), AllocError>
    ensures { OnOk result (string_bytes text.new ≡ string_bytes text.old ++ codes "/" ++ decimal number) }
{
    text.push('/')?;
    // (most numbers have one digit)
    if number < 10 {
        return push_digit(text, number);
    }
    push_long::<u64>(text, number)
}

/// Adds the text of one part of a name, after a slash.
fn push_part<E: Numbered>(text: &mut String, part: &NamePart<E>) -> Result<(), AllocError>
    ensures { OnOk result (string_bytes text.new ≡ string_bytes text.old ++ codes "/" ++ part_text E.key_of E.number_of part.now) }
{
    match part {
        NamePart::Fork(number) => push_fork(text, *number),
        NamePart::Hand(number, event) => {
            text.push_str("/h")?;
            push_long(text, *number)?;
            text.push_str(":")?;
            push_number(text, event.key())?;
            text.push_str(":")?;
            push_number(text, event.number())
        }
    }
}

/// Adds a task's name.
pub(crate) fn push_name<E: Numbered>(
    text: &mut String,
    task: &TaskName<E>,
) -> Result<(), AllocError>
    ensures { OnOk result (string_bytes text.new ≡ string_bytes text.old ++ name_text E.key_of E.number_of task.now) }
{
    push_parts(text, task.parts())
}

/// Adds `main`, and these parts of a name.
fn push_parts<E: Numbered>(text: &mut String, parts: Parts<'_, E>) -> Result<(), AllocError>
    ensures { OnOk result (string_bytes text.new ≡ string_bytes text.old ++ name_text E.key_of E.number_of parts.entry) }
{
    match parts.split_last() {
        None => text.push_str("main"),
        Some((last, before)) => {
            push_parts(text, before)?;
            push_part(text, last)
        }
    }
}

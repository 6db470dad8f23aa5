ghost use Rattle.std.specs.Prelude.{◌≡◌, true, false, Ok, ◌+ℤ◌, ◌-ℤ◌, ◌*ℤ◌, int_div, int_rem};
ghost use Rattle.lvish_task.specs.Arithmetic.{combined, accumulates, compares, fitting, dividing};

use lvish_calculus::ErrorKind;
use lvish_syntax::Operator;

#[inline(always)]
fn add(left: i64, right: i64) -> Result<i64, ErrorKind>
    ensures { result ≡ fitting (left +ℤ right) }
{
    if right >= 0 {
        if left <= i64::MAX - right {
            return Ok(left + right);
        }
    } else if left >= i64::MIN - right {
        return Ok(left + right);
    }
    Err(ErrorKind::Overflow)
}

#[inline(always)]
fn subtract(left: i64, right: i64) -> Result<i64, ErrorKind>
    ensures { result ≡ fitting (left -ℤ right) }
{
    if right >= 0 {
        if left >= i64::MIN + right {
            return Ok(left - right);
        }
    } else if left <= i64::MAX + right {
        return Ok(left - right);
    }
    Err(ErrorKind::Overflow)
}

#[inline(always)]
fn multiply(left: i64, right: i64) -> Result<i64, ErrorKind>
    ensures { result ≡ fitting (left *ℤ right) }
{
    match left.checked_mul(right) {
        Some(product) => Ok(product),
        None => Err(ErrorKind::Overflow),
    }
}

fn divide(left: i64, right: i64) -> Result<i64, ErrorKind>
    ensures { result ≡ dividing left right (int_div left right) }
{
    if right == 2 {
        return Ok(left / 2);
    }
    if right == 0 {
        return Err(ErrorKind::Zero);
    }
    match left.checked_div(right) {
        Some(quotient) => Ok(quotient),
        None => Err(ErrorKind::Overflow),
    }
}

fn remain(left: i64, right: i64) -> Result<i64, ErrorKind>
    ensures { result ≡ dividing left right (int_rem left right) }
{
    if right == 2 {
        return Ok(left % 2);
    }
    if right == 0 {
        return Err(ErrorKind::Zero);
    }
    match left.checked_rem(right) {
        Some(remainder) => Ok(remainder),
        None => Err(ErrorKind::Overflow),
    }
}

// Operators are told apart by comparisons, a few at a time: a `match` on all of them would be a jump
// through a table, which takes longer than most of them wherever the processor can't foresee it.

/// Whether an operator makes a sum, a difference or a product.
fn accumulates(operator: Operator) -> bool
    ensures { result ≡ accumulates operator }
{
    matches!(
        operator,
        Operator::Add | Operator::Subtract | Operator::Multiply
    )
}

/// Whether an operator compares.
fn compares(operator: Operator) -> bool
    ensures { result ≡ compares operator }
{
    matches!(operator, Operator::Less | Operator::Equal)
}

/// A sum, a difference or a product.
#[inline(always)]
fn accumulate(operator: Operator, left: i64, right: i64) -> Result<i64, ErrorKind>
    requires { accumulates operator ≡ true }
    ensures { result ≡ combined operator left right }
{
    match operator {
        Operator::Add => add(left, right),
        Operator::Subtract => subtract(left, right),
        _ => multiply(left, right),
    }
}

/// 1 where the comparison holds, and 0 where it doesn't.
#[inline(always)]
fn compare(operator: Operator, left: i64, right: i64) -> i64
    requires { compares operator ≡ true }
    ensures { combined operator left right ≡ Ok result }
{
    let holds = match operator {
        Operator::Less => left < right,
        _ => left == right,
    };
    if holds { 1 } else { 0 }
}

/// A quotient or a remainder.
#[inline(always)]
fn part(operator: Operator, left: i64, right: i64) -> Result<i64, ErrorKind>
    requires accumulates { accumulates operator ≡ false }
    requires compares { compares operator ≡ false }
    ensures { result ≡ combined operator left right }
{
    match operator {
        Operator::Divide => divide(left, right),
        _ => remain(left, right),
    }
}

/// What an operator makes of two numbers, or how it fails.
#[inline(always)]
pub fn combine(operator: Operator, left: i64, right: i64) -> Result<i64, ErrorKind>
    ensures { result ≡ combined operator left right }
{
    if accumulates(operator) {
        accumulate(operator, left, right)
    } else if compares(operator) {
        Ok(compare(operator, left, right))
    } else {
        part(operator, left, right)
    }
}

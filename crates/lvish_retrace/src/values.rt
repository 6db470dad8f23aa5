//! What instructions compute from the values of locals.

use lvish_code::{Expression, Operand, Side, Target, Wanted};
use lvish_compound::{Kind, Place};
use lvish_syntax::{Operator, SimpleKind};
use std::alloc::{AllocError, Global};

/// The value of an operand.
pub fn value_of(values: &[i64], operand: Operand) -> i64 {
    match operand {
        Operand::Local(local) => match values.get(local) {
            Some(value) => *value,
            None => 0,
        },
        Operand::Number(number) => number,
    }
}

/// The values of operands in their order.
pub fn values_of(
    alloc: Global,
    values: &[i64],
    operands: &[Operand],
) -> Result<Vec<i64>, AllocError> {
    let mut found = Vec::with_capacity(alloc, operands.len())?;
    for operand in operands {
        found.push(value_of(values, *operand))?;
    }
    Ok(found)
}

/// 1 for true, 0 for false.
fn as_number(holds: bool) -> i64 {
    if holds { 1 } else { 0 }
}

/// What an operator makes of two numbers; `None` where it fails.
fn combined(operator: Operator, left: i64, right: i64) -> Option<i64> {
    match operator {
        Operator::Add => left.checked_add(right),
        Operator::Subtract => left.checked_sub(right),
        Operator::Multiply => left.checked_mul(right),
        Operator::Divide => left.checked_div(right),
        Operator::Remainder => left.checked_rem(right),
        Operator::Less => Some(as_number(left < right)),
        Operator::Equal => Some(as_number(left == right)),
    }
}

/// What a `let` gives its local; `None` where it fails.
pub fn expression_of(values: &[i64], expression: &Expression) -> Option<i64> {
    match *expression {
        Expression::Same(operand) => Some(value_of(values, operand)),
        Expression::Combined(left, operator, right) => {
            combined(operator, value_of(values, left), value_of(values, right))
        }
    }
}

/// A side's kind, among those of events.
fn kind_of(kind: SimpleKind) -> Kind {
    match kind {
        SimpleKind::Cell => Kind::Cell,
        SimpleKind::Set => Kind::Set,
        SimpleKind::Max => Kind::Max,
    }
}

/// Where in its variable a target is.
pub fn place_of(values: &[i64], target: Target) -> Place {
    match target {
        Target::Whole(SimpleKind::Cell) => Place::Cell,
        Target::Whole(SimpleKind::Set) => Place::Set,
        Target::Whole(SimpleKind::Max) => Place::Max,
        Target::Entry(key) => Place::Key(value_of(values, key)),
        Target::Side(Side::First, kind) => Place::Side(1, kind_of(kind)),
        Target::Side(Side::Second, kind) => Place::Side(2, kind_of(kind)),
        Target::Amount(key) => Place::Amount(value_of(values, key)),
        Target::Total => Place::Total,
    }
}

/// The number that a get waits for, where it is one.
pub fn wanted_of(values: &[i64], wanted: &Wanted) -> Option<i64> {
    match wanted {
        Wanted::Any | Wanted::In(_) => None,
        Wanted::At(operand) => Some(value_of(values, *operand)),
    }
}

ghost use Rattle.std.specs.Prelude.{◌≡◌, IfOk, map};
ghost use Rattle.lvish_task.specs.Run.{operand_value, expression_value, target_place, wanted_test};
ghost use Rattle.lvish_task.specs.Meaning.{kind_meant};

use crate::arithmetic::combine;
use crate::in_place::InPlace;
use crate::limits::IN_PLACE;
use crate::values::Values;
use lvish_calculus::ErrorKind;
use lvish_code::{Expression, Operand, Side, Target, Wanted};
use lvish_compound::{Kind, Place, Test};
use lvish_lattice::Items;
use lvish_syntax::SimpleKind;
use std::alloc::{AllocError, Global};

/// The value of an operand.
#[inline(always)]
pub fn value_of(values: &[i64], operand: Operand) -> i64
    ensures { result ≡ operand_value values.now operand }
{
    match operand {
        Operand::Local(local) => match values.get(local) {
            Some(value) => *value,
            None => 0,
        },
        Operand::Number(n) => n,
    }
}

/// The values of operands in their order.
pub fn values_of(alloc: Global, values: &Values, operands: &[Operand]) -> Result<Values, AllocError>
    ensures { IfOk result (λ v. v ≡ map (operand_value values.now) operands.now) }
{
    if operands.len() > IN_PLACE {
        return many_values_of(alloc, values, operands);
    }
    let mut found = InPlace::new();
    for operand in operands {
        found.push(values.operand(*operand));
    }
    Ok(Values::few(found))
}

/// The values of many operands in their order.
fn many_values_of(
    alloc: Global,
    values: &Values,
    operands: &[Operand],
) -> Result<Values, AllocError>
    ensures { IfOk result (λ v. v ≡ map (operand_value values.now) operands.now) }
{
    let mut found = Vec::with_capacity(alloc, operands.len())?;
    for operand in operands {
        found.push(values.operand(*operand))?;
    }
    Ok(Values::many(found))
}

/// What a `let` gives its local, or how it fails.
#[inline(always)]
pub fn evaluate(values: &[i64], expression: &Expression) -> Result<i64, ErrorKind>
    ensures { result ≡ expression_value values.now expression.now }
{
    match expression {
        Expression::Same(operand) => Ok(value_of(values, *operand)),
        Expression::Combined(left, operator, right) => {
            combine(*operator, value_of(values, *left), value_of(values, *right))
        }
    }
}

/// A side's kind, among those of events.
fn side_kind(kind: SimpleKind) -> Kind
    ensures { result ≡ kind_meant kind }
{
    match kind {
        SimpleKind::Cell => Kind::Cell,
        SimpleKind::Set => Kind::Set,
        SimpleKind::Max => Kind::Max,
    }
}

/// Where in its variable a target is, where the locals have these values.
pub fn place_of(values: &Values, target: Target) -> Place
    ensures { result ≡ target_place values.now target }
{
    match target {
        Target::Whole(SimpleKind::Cell) => Place::Cell,
        Target::Whole(SimpleKind::Set) => Place::Set,
        Target::Whole(SimpleKind::Max) => Place::Max,
        Target::Entry(key) => Place::Key(values.operand(key)),
        Target::Side(Side::First, kind) => Place::Side(1, side_kind(kind)),
        Target::Side(Side::Second, kind) => Place::Side(2, side_kind(kind)),
        Target::Amount(key) => Place::Amount(values.operand(key)),
        Target::Total => Place::Total,
    }
}

/// What a get waits for, where the locals have these values.
pub fn test_of(alloc: Global, values: &Values, wanted: &Wanted) -> Result<Test, AllocError>
    ensures { IfOk result (λ t. t ≡ wanted_test values.now wanted.now) }
{
    match wanted {
        Wanted::Any => Ok(Test::Any),
        Wanted::In(numbers) => Ok(Test::In(Items::new(numbers.as_slice().to_vec(alloc)?))),
        Wanted::At(operand) => Ok(Test::At(values.operand(*operand))),
    }
}

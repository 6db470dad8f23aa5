use crate::operand::Operand;
use lvish_syntax::Operator;

/// What a `let` gives its local.
#[derive(Clone, Copy)]
pub enum Expression {
    /// The value of the operand.
    Same(Operand),
    /// What the operator makes of the values of two operands.
    Combined(Operand, Operator, Operand),
}

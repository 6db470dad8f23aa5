use lvish_base::Items;

/// What stands for a number in an instruction.
#[derive(Clone, Copy)]
pub enum Operand {
    /// The value of the local with this number.
    Local(usize),
    /// This number.
    Number(i64),
}

/// Operands in order.
pub type Operands = Items<Operand>;

use crate::operand::Operand;
use lvish_syntax::SimpleKind;

/// A side of a pair.
#[derive(Clone, Copy)]
pub enum Side {
    /// Side 1.
    First,
    /// Side 2.
    Second,
}

/// What a put or a get on a variable is about.
#[derive(Clone, Copy)]
pub enum Target {
    /// The whole variable, which is of this kind.
    Whole(SimpleKind),
    /// A map's cell at the operand's value as key.
    Entry(Operand),
    /// A pair's side, which is of this kind.
    Side(Side, SimpleKind),
    /// A tally's amount at the operand's value as key.
    Amount(Operand),
    /// A tally's total, which is only got.
    Total,
}

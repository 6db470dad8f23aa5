/// The kinds that a side of a pair can have.
#[derive(Clone, Copy, PartialEq, Eq)]
pub enum SimpleKind {
    /// Empty, or one number.
    Cell,
    /// A set of numbers.
    Set,
    /// A counter, from 0 to 1,000.
    Max,
}

/// What a variable holds.
#[derive(Clone, Copy, PartialEq, Eq)]
pub enum VariableKind {
    /// A cell, a set or a counter.
    Simple(SimpleKind),
    /// A map from numbers to numbers.
    Map,
    /// Two sides.
    Pair(SimpleKind, SimpleKind),
    /// A tally: a map from numbers to amounts, which are from 1 to 1,000.
    Tally,
}

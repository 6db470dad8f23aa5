/// What combines two numbers in a `let`.
#[derive(Clone, Copy, PartialEq, Eq)]
pub enum Operator {
    /// `+`
    Add,
    /// `-`
    Subtract,
    /// `*`
    Multiply,
    /// `/`, towards zero.
    Divide,
    /// `%`, with the sign of the first number.
    Remainder,
    /// `<`, which gives 1 or 0.
    Less,
    /// `=`, which gives 1 or 0.
    Equal,
}

use crate::operand::Operand;
use lvish_syntax::Numbers;

/// What a get waits for at its target.
pub enum Wanted {
    /// A number in a cell.
    Any,
    /// One of the numbers, each as a state of the target's kind.
    In(Numbers),
    /// The operand's value: as an element of a set, or as what a counter, an amount or a total has
    /// reached.
    At(Operand),
}

// Written out, so that it is proved once, and not at each exit of a function that owns one.
impl Drop for Wanted {
    fn drop(self) {
        match self {
            Wanted::Any => {}
            Wanted::In(_) => {}
            Wanted::At(_) => {}
        }
    }
}

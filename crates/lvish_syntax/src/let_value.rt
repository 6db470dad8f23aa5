ghost use Rattle.std.specs.Prelude.{◌≡◌};

use crate::operator::Operator;
use crate::term::Term;

/// What a `let` gives its local.
pub enum LetValue {
    /// The value of the term.
    Same(Term),
    /// What the operator makes of the values of two terms.
    Combined(Term, Operator, Term),
}

// Written out, so that it is proved once, and not at each exit of a function that owns one.
impl Drop for LetValue {
    fn drop(self) {
        match self {
            LetValue::Same(_) => {}
            LetValue::Combined(_, _, _) => {}
        }
    }
}

impl LetValue {
    /// An equal value, which takes no memory.
    pub fn copy(&self) -> LetValue
        ensures { result ≡ self.now }
    {
        match self {
            LetValue::Same(term) => LetValue::Same(term.copy()),
            LetValue::Combined(left, operator, right) => {
                LetValue::Combined(left.copy(), *operator, right.copy())
            }
        }
    }
}

ghost use Rattle.std.specs.Prelude.{◌≡◌, IfOk};

use crate::identifier::Identifier;
use lvish_base::Items;
use std::alloc::{AllocError, Global};

/// What stands for a number in a statement: a local or a number.
pub enum Term {
    /// The value of the local with this name.
    Local(Identifier),
    /// This number.
    Number(i64),
}

// Written out, so that it is proved once, and not at each exit of a function that owns one.
impl Drop for Term {
    fn drop(self) {
        match self {
            Term::Local(_) => {}
            Term::Number(_) => {}
        }
    }
}

/// Terms in order.
pub type Terms = Items<Term>;

impl Term {
    /// An equal term, which takes no memory.
    pub fn copy(&self) -> Term
        ensures { result ≡ self.now }
    {
        match self {
            Term::Local(name) => Term::Local(name.copy()),
            Term::Number(n) => Term::Number(*n),
        }
    }

    /// Equal terms in the same order.
    pub fn copy_all(alloc: Global, terms: &Terms) -> Result<Terms, AllocError>
        ensures { IfOk result (λ t. t ≡ terms.now) }
    {
        let mut items = Vec::new(alloc);
        for term in terms.as_slice() {
            items.push(term.copy())?;
        }
        Ok(Terms::from(items))
    }
}

ghost use Rattle.std.specs.Prelude.{◌≡◌, IfOk};

use crate::term::Term;
use lvish_base::Items;
use std::alloc::{AllocError, Global};

/// Numbers in order.
pub type Numbers = Items<i64>;

/// What a `get` waits for.
pub enum Threshold {
    /// `any`: a number in a cell.
    Any,
    /// `in`: one of the numbers.
    In(Numbers),
    /// `has`: the term's value in a set.
    Has(Term),
    /// `least`: a counter that is at least the term's value.
    Least(Term),
    /// `total`: a tally whose amounts come to at least the term's value.
    Total(Term),
}

// Written out, so that it is proved once, and not at each exit of a function that owns one.
impl Drop for Threshold {
    fn drop(self) {
        match self {
            Threshold::Any => {}
            Threshold::In(_) => {}
            Threshold::Has(_) => {}
            Threshold::Least(_) => {}
            Threshold::Total(_) => {}
        }
    }
}

impl Threshold {
    /// An equal test.
    pub fn copy(&self, alloc: Global) -> Result<Threshold, AllocError>
        ensures { IfOk result (λ t. t ≡ self.now) }
    {
        match self {
            Threshold::Any => Ok(Threshold::Any),
            Threshold::In(numbers) => Ok(Threshold::In(numbers.copy(alloc)?)),
            Threshold::Has(term) => Ok(Threshold::Has(term.copy())),
            Threshold::Least(term) => Ok(Threshold::Least(term.copy())),
            Threshold::Total(term) => Ok(Threshold::Total(term.copy())),
        }
    }
}

ghost use Rattle.std.specs.Prelude.{◌≡◌, ◌≢◌, ◌≤◌, ◌<◌, ◌⊎◌, None, Some, IsTrue, IsFalse, length};
ghost use Rattle.lvish_history.specs.Stamped.{stamped};

use crate::limits::NO_NUMBER;
use crate::log::Seen;
use crate::origin::Origin;
use std::marker::{Model, PhantomData};

/// The number of a value in a history, or of none. A contract sees the value.
pub struct Stamp<V, O: Origin> {
    number: u32,
    seen: Seen<V>,
    of: PhantomData<O>,
}

// Written out, so that it is proved once, and not at each exit of a function that owns one.
impl<V, O: Origin> Drop for Stamp<V, O> {
    #[inline(always)]
    fn drop(self) {
        let Stamp {
            number: _,
            seen: _,
            of: _,
        } = self;
    }
}

impl<V, O: Origin> Model for Stamp<V, O> {
    ghost use Rattle.std.specs.Prelude.{◌≡◌, ◌≤◌, ◌<◌, ◌⊎◌, length};
    ghost use Rattle.lvish_history.specs.declared.limits.TheConstants.{NO_NUMBER};
    ghost use Rattle.lvish_history.specs.Stamped.{Stamped, stamped};

    ghost Value = { Stamped V };

    ghost view = { λ s. stamped s.seen.values s.number };

    ghost invariant = { λ s. (s.seen.book ≡ O.book) × (length s.seen.values ≤ NO_NUMBER) × ((s.number ≡ NO_NUMBER) ⊎ (s.number < length s.seen.values)) };
}

impl<V, O: Origin> Stamp<V, O> {
    #[inline(always)]
    pub(crate) fn new(number: u32, seen: Seen<V>) -> Stamp<V, O>
        requires book { seen.book ≡ O.book }
        requires few { length seen.values ≤ NO_NUMBER }
        requires there { (number ≡ NO_NUMBER) ⊎ (number < length seen.values) }
        ensures { result ≡ stamped seen.values number }
    {
        Stamp {
            number,
            seen,
            of: PhantomData,
        }
    }

    /// The stamp of no value.
    #[inline(always)]
    pub fn none(&self) -> Stamp<V, O>
        ensures { result.value ≡ None }
    {
        Stamp {
            number: NO_NUMBER,
            seen: self.seen.again(),
            of: PhantomData,
        }
    }

    /// The same stamp.
    #[inline(always)]
    pub fn copy(&self) -> Stamp<V, O>
        ensures { result ≡ self.now }
    {
        Stamp {
            number: self.number,
            seen: self.seen.again(),
            of: PhantomData,
        }
    }

    /// Whether both are of one value: whether they have one number.
    #[inline(always)]
    pub fn is(&self, other: &Stamp<V, O>) -> bool
        ensures same { IsTrue result → (v : V) × (self.now.value ≡ Some v) × (other.now.value ≡ Some v) }
        ensures other { IsFalse result → (self.now.value ≡ None) ⊎ (self.now.number ≢ other.now.number) }
    {
        self.seen.compare(&other.seen);
        self.number == other.number && self.number != NO_NUMBER
    }
}

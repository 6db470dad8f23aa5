ghost use Rattle.std.specs.Prelude.{◌≡◌, [], None};
ghost use Rattle.lvish_history.specs.Stamped.{IsStamped};

use crate::limits::NO_NUMBER;
use crate::log::Log;
use crate::origin::Origin;
use crate::stamp::Stamp;
use std::marker::{Model, PhantomData};

/// A history of no value, which has no name yet.
pub struct Opened<V> {
    seen: Log<V>,
    pub ghost empty: { seen.values ≡ [] },
}

// Written out, so that it is proved once, and not at each exit of a function that owns one.
impl<V> Drop for Opened<V> {
    fn drop(self) {
        let Opened { seen: _ } = self;
    }
}

impl<V> Opened<V> {
    /// A history that nobody else has.
    pub fn new() -> Opened<V> {
        Opened { seen: Log::new() }
    }

    /// The history under a name.
    pub fn named<O: Origin>(self) -> History<V, O>
        requires { self.seen.book ≡ O.book }
        ensures { result ≡ [] }
    {
        let Opened { seen } = self;
        History {
            log: seen,
            count: 0,
            of: PhantomData,
        }
    }
}

/// The values that were given a number, in the order of their numbers. They exist in the proofs alone.
pub struct History<V, O: Origin> {
    log: Log<V>,
    count: u32,
    of: PhantomData<O>,
}

// Written out, so that it is proved once, and not at each exit of a function that owns one.
impl<V, O: Origin> Drop for History<V, O> {
    fn drop(self) {
        let History {
            log: _,
            count: _,
            of: _,
        } = self;
    }
}

impl<V, O: Origin> Model for History<V, O> {
    ghost use Rattle.std.specs.Prelude.{◌≡◌, ◌≤◌, List, length};
    ghost use Rattle.lvish_history.specs.declared.limits.TheConstants.{NO_NUMBER};

    ghost Value = { List V };

    ghost view = { λ h. h.log.values };

    ghost invariant = { λ h. (h.count ≡ length h.log.values) × (length h.log.values ≤ NO_NUMBER) × (h.log.book ≡ O.book) };
}

impl<V, O: Origin> History<V, O> {
    /// The stamp of no value.
    #[inline(always)]
    pub fn none(&self) -> Stamp<V, O>
        ensures { result.value ≡ None }
    {
        Stamp::new(NO_NUMBER, self.log.seen())
    }

    /// A stamp for the value; that of no value where all numbers are used up.
    #[inline(always)]
    pub fn stamp(&mut self, value: &V) -> Stamp<V, O>
        ensures { IsStamped value.now self.old self.new result }
    {
        let number = self.count;
        if number == NO_NUMBER {
            return self.none();
        }
        self.log.add(value);
        self.count = number + 1;
        Stamp::new(number, self.log.seen())
    }
}

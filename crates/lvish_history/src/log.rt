// A log that exists in the proofs alone, and what was seen of it. Neither has bytes.
ghost use Rattle.std.specs.Prelude.{◌≡◌, ℕ, List, [], ◌∷◌, ◌++◌};
ghost use mathlib.Core.List.{IsPrefix};
ghost use base.Stored.{coded_list};
ghost use denote.Sharing.{said};
ghost use Rattle.lvish_history.specs.Logs.{log_owns, seen_owns};

use std::marker::{Model, PhantomData};

/// All values of a log. Only its owner adds to it.
pub struct Log<V> {
    marker: PhantomData<V>,
    pub ghost book: { ℕ },
    pub ghost values: { List V } by { coded_list V.code },
}

impl<V> Model for Log<V> {
    ghost also_owns = { λ l. log_owns V.row.coded.code l.book l.values };

    ghost also_shares = { λ l _ κ. said (seen_owns V.row.coded.code l.book l.values) κ };
}

/// A beginning of a log.
pub struct Seen<V> {
    marker: PhantomData<V>,
    pub ghost book: { ℕ },
    pub ghost values: { List V } by { coded_list V.code },
}

impl<V> Model for Seen<V> {
    ghost also_owns = { λ s. seen_owns V.row.coded.code s.book s.values };

    ghost also_shares = { λ s _ κ. said (seen_owns V.row.coded.code s.book s.values) κ };
}

impl<V> Log<V> {
    /// A log of no value, which has a name of its own.
    pub fn new() -> Log<V>
        ensures { result.values ≡ [] }
    {
        Log {
            marker: PhantomData,
        }
    }

    /// The value comes behind the others.
    #[inline(always)]
    pub fn add(&mut self, value: &V)
        ensures { (self.new.book ≡ self.old.book) × (self.new.values ≡ self.old.values ++ value.now ∷ []) }
    {
        let _ = value;
    }

    /// All that there is of it.
    #[inline(always)]
    pub fn seen(&self) -> Seen<V>
        ensures { (result.book ≡ self.now.book) × (result.values ≡ self.now.values) }
    {
        Seen {
            marker: PhantomData,
        }
    }
}

impl<V> Seen<V> {
    /// A copy.
    #[inline(always)]
    pub fn again(&self) -> Seen<V>
        ensures { result ≡ self.now }
    {
        Seen {
            marker: PhantomData,
        }
    }

    /// Both are beginnings of one list.
    #[inline(always)]
    pub fn compare(&self, other: &Seen<V>)
        requires { self.now.book ≡ other.now.book }
        ensures { (all : List V) × IsPrefix self.now.values all × IsPrefix other.now.values all }
    {
        let _ = other;
    }
}

impl<V> Drop for Log<V> {
    fn drop(self) {
        let Self { marker: _ } = self;
    }
}

impl<V> Drop for Seen<V> {
    fn drop(self) {
        let Self { marker: _ } = self;
    }
}

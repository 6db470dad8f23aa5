ghost use Rattle.std.specs.Prelude.{◌≡◌};

use std::cmp::Ordering;
use std::marker::Model;

/// A value as the key of a tree, in its own order.
///
/// A search goes on at each key that the sought one is above, so that is asked first, by one
/// comparison that branches.
#[derive(Clone, Copy)]
pub struct Ranked<V> {
    value: V,
}

impl<V> Model for Ranked<V> {
    ghost Value = { V };

    ghost view = { λ r. r.value };

    ghost inverse = { λ v. record { value = v } };
}

impl<V> Ranked<V> {
    pub fn new(value: V) -> Ranked<V>
        ensures { result ≡ value }
    {
        Ranked { value }
    }

    /// The value.
    pub fn get(&self) -> &V
        ensures { result.now ≡ self.now }
    {
        &self.value
    }
}

/// The order of two values of which the first isn't above the second.
// Apart, so that the test before it stays a branch.
#[inline(never)]
fn unless_above<V: Ord>(x: &V, y: &V) -> Ordering
    ensures { result ≡ V.cmp x.now y.now }
{
    x.cmp(y)
}

impl<V: PartialEq> PartialEq for Ranked<V> {
    ghost eq = { V.eq };

    ghost laws = { V.laws };

    fn eq(&self, other: &Ranked<V>) -> bool {
        self.value == other.value
    }
}

impl<V: Eq> Eq for Ranked<V> {
    ghost laws = { V.Eq.laws };
}

impl<V: PartialOrd> PartialOrd for Ranked<V> {
    ghost partial_cmp = { V.partial_cmp };

    ghost laws = { V.PartialOrd.laws };

    fn partial_cmp(&self, other: &Ranked<V>) -> Option<Ordering> {
        self.value.partial_cmp(&other.value)
    }
}

impl<V: Ord> Ord for Ranked<V> {
    ghost cmp = { V.cmp };

    ghost total = { V.total };

    ghost matches_partial_cmp = { V.matches_partial_cmp };

    ghost matches_eq = { V.matches_eq };

    fn cmp(&self, other: &Ranked<V>) -> Ordering {
        if self.value > other.value {
            return Ordering::Greater;
        }
        unless_above(&self.value, &other.value)
    }
}

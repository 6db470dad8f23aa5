ghost use Rattle.std.specs.Prelude.{◌≡◌, IfOk};

use std::alloc::{AllocError, Global};
use std::marker::Model;

/// A vector, seen as its list.
#[derive(Debug)]
pub struct Items<V> {
    items: Vec<V>,
}

// Written out, so that it is proved once, and not at each exit of a function that owns one.
impl<V: Drop> Drop for Items<V> {
    fn drop(self) {
        let Items { items: _ } = self;
    }
}

impl<V> Model for Items<V> {
    ghost use Rattle.std.specs.Prelude.{List};

    ghost Value = { List V };

    ghost view = { λ s. s.items.items };
}

impl<V: PartialEq> PartialEq for Items<V> {
    ghost use Rattle.std.specs.Cmp.Lexicographic.{lists_per, pointwise};

    ghost eq = { pointwise V.eq };

    ghost laws = { lists_per V.laws };

    fn eq(&self, other: &Items<V>) -> bool {
        self.as_slice() == other.as_slice()
    }
}

impl<V: Eq> Eq for Items<V> {
    ghost use Rattle.std.specs.Cmp.Lexicographic.{lists_equiv};

    ghost laws = { lists_equiv V.Eq.laws };
}

impl<V> From<Vec<V>> for Items<V> {
    ghost from_gives = { λ v t. t ≡ v.items };

    fn from(items: Vec<V>) -> Items<V> {
        Items::new(items)
    }
}

impl<V> Items<V> {
    /// These items.
    pub fn new(items: Vec<V>) -> Items<V>
        ensures { result ≡ items.items }
    {
        Items { items }
    }

    /// The items in order.
    pub fn as_slice(&self) -> &[V]
        ensures { result.now ≡ self.now }
    {
        &self.items
    }
}

impl<V: Copy> Items<V> {
    /// The same items.
    ///
    /// # Errors
    ///
    /// Where there is no room for them.
    pub fn copy(&self, alloc: Global) -> Result<Items<V>, AllocError>
        ensures { IfOk result (λ t. t ≡ self.now) }
    {
        Ok(Items::new(Vec::from_slice(alloc, &self.items)?))
    }
}

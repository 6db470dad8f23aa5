ghost use Rattle.std.specs.Prelude.{◌≡◌, ◌↔◌, [], ◌∷◌, IfOk, IfErr, IsTrue, length, not, true};
ghost use Rattle.std.specs.Set.{sorted_merge, is_member};
ghost use Rattle.std.specs.declared.cmp.Ordering.TheVariants.{Less};
ghost use Rattle.std.specs.List.Sorted.{IsStrictlySortedBy};
ghost use Rattle.lvish_lattice.specs.Elements.{EndsBelow, GoesOn};

use crate::lattice::Plain;
use std::alloc::{AllocError, Global};
use std::marker::Model;

/// Elements that came in ascending order: each stands behind those that came before it.
///
/// The vector stands behind a box, since whatever may hold a row would be as large as it otherwise.
pub(crate) struct Row<V: Ord> {
    items: Box<Vec<V>>,
}

// Written out, so that it is proved once, and not at each exit of a function that owns one.
impl<V: Ord + Drop> Drop for Row<V> {
    fn drop(self) {
        let Row { items: _ } = self;
    }
}

impl<V: Ord> Model for Row<V> {
    ghost use Rattle.std.specs.Prelude.{List};
    ghost use Rattle.std.specs.List.Sorted.{IsStrictlySortedBy, IsStrictlySortedBy-prop};

    ghost Value = { List V };

    ghost view = { λ r. r.items.value.items };

    ghost invariant = { λ r. IsStrictlySortedBy V.cmp r.items.value.items };
}

impl<V: Plain> Row<V> {
    /// One element, which others may follow.
    pub fn of_one(alloc: Global, x: V) -> Result<Row<V>, AllocError>
        ensures { IfOk result (λ r. r ≡ x ∷ []) }
    {
        let mut items = Vec::with_capacity(alloc, 2)?;
        items.push(x)?;
        Row::of(alloc, items)
    }

    /// The elements of an ascending list.
    pub fn of(alloc: Global, items: Vec<V>) -> Result<Row<V>, AllocError>
        requires { IsStrictlySortedBy V.cmp items.items }
        ensures { IfOk result (λ r. r ≡ items.items) }
    {
        Ok(Row {
            items: Box::new(alloc, items)?,
        })
    }

    /// The two in this order.
    pub fn of_two(alloc: Global, first: V, second: V) -> Result<Row<V>, AllocError>
        requires { V.cmp first second ≡ Less }
        ensures { IfOk result (λ r. r ≡ first ∷ second ∷ []) }
    {
        let mut items = Vec::with_capacity(alloc, 2)?;
        items.push(first)?;
        items.push(second)?;
        Row::of(alloc, items)
    }

    /// The elements in ascending order.
    pub fn as_slice(&self) -> &[V]
        ensures same { result.now ≡ self.now }
        ensures ascending { IsStrictlySortedBy V.cmp self.now }
    {
        self.items.as_slice()
    }

    /// Whether all are below this one.
    pub fn ends_below(&self, x: V) -> bool
        ensures { IsTrue result ↔ EndsBelow V.cmp x self.now }
    {
        match self.items.last() {
            Some(last) => *last < x,
            None => true,
        }
    }

    /// Whether all are below the first of these values.
    pub fn goes_on(&self, values: &[V]) -> bool
        ensures { IsTrue result ↔ GoesOn V.cmp values.now self.now }
    {
        match values.first() {
            Some(first) => self.ends_below(*first),
            None => true,
        }
    }

    /// Puts ascending values behind all others.
    pub fn push_all(&mut self, values: &[V]) -> Result<(), AllocError>
        requires behind { GoesOn V.cmp values.now self.old }
        requires ascending { IsStrictlySortedBy V.cmp values.now }
        ensures put { IfOk result (λ _. self.new ≡ sorted_merge V.cmp true values.now self.old) }
        ensures refused { IfErr result (λ _. self.new ≡ self.old) }
    {
        self.items.extend_from_slice(values)?;
        Ok(())
    }

    /// Puts an element behind all others, and answers true, since it wasn't there.
    pub fn push(&mut self, x: V) -> Result<bool, AllocError>
        requires { EndsBelow V.cmp x self.old }
        ensures added { IfOk result (λ added. added ≡ not (is_member V.eq self.old x)) }
        ensures put { IfOk result (λ _. self.new ≡ sorted_merge V.cmp true (x ∷ []) self.old) }
        ensures refused { IfErr result (λ _. self.new ≡ self.old) }
    {
        self.items.push(x)?;
        Ok(true)
    }

    /// Whether the element is there, so that a put of it changes nothing.
    pub fn has(&self, x: V) -> bool
        ensures member { result ≡ is_member V.eq self.now x }
        ensures put { IsTrue result → sorted_merge V.cmp true (x ∷ []) self.now ≡ self.now }
    {
        let items = self.as_slice();
        // Elements that come in ascending order need no search.
        if self.ends_below(x) {
            return false;
        }
        items.binary_search(&x).is_ok()
    }

    pub fn copy(&self, alloc: Global) -> Result<Row<V>, AllocError>
        ensures { IfOk result (λ r. r ≡ self.now) }
    {
        let items = Vec::from_slice(alloc, self.as_slice())?;
        Ok(Row {
            items: Box::new(alloc, items)?,
        })
    }
}

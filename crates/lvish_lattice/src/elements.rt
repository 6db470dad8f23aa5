ghost use Rattle.std.specs.Prelude.{◌≡◌, ◌↔◌, not, IfOk, IfErr, IsTrue, Contains, MatchOption, [], ◌∷◌, true, filter, length, ⊤};
ghost use Rattle.std.specs.Cmp.Lexicographic.{pointwise};
ghost use Rattle.std.specs.Set.{sorted_merge, is_member};
ghost use Rattle.std.specs.List.Sorted.{IsStrictlySortedBy};
ghost use Rattle.lvish_lattice.specs.Elements.{few, elements, AreApart};

use crate::lattice::Plain;
use crate::ranked::Ranked;
use crate::row::Row;
use crate::set_iter::SetIter;
use crate::trees::{put_all_in_tree, put_in_tree, tree_copy, tree_of_row, tree_of_two};
use std::alloc::{AllocError, Global};
use std::cmp::Ordering;
use std::collections::BTreeSet;
use std::marker::Model;

/// Nothing, or one element in place, as most puts have it; a row, as long as each further element
/// comes behind the others; else a tree.
///
/// Row and tree stand in blocks of their own, so that a state is small: it is moved at each step.
pub(crate) enum Stored<V: Ord> {
    Nothing,
    One(V),
    Row(Row<V>),
    Tree(Box<BTreeSet<Ranked<V>>>),
}

// Written out, so that it is proved once, and not at each exit of a function that owns one.
impl<V: Ord + Drop> Drop for Stored<V> {
    fn drop(self) {
        match self {
            Stored::Nothing => {}
            Stored::One(_) => {}
            Stored::Row(_) => {}
            Stored::Tree(_) => {}
        }
    }
}

/// Elements, seen as their list, ascending.
pub struct Elements<V: Ord> {
    stored: Stored<V>,
}

// Written out, so that it is proved once, and not at each exit of a function that owns one.
impl<V: Ord + Drop> Drop for Elements<V> {
    fn drop(self) {
        let Elements { stored: _ } = self;
    }
}

impl<V: Ord> Model for Elements<V> {
    ghost use Rattle.std.specs.Prelude.{List};
    ghost use Rattle.lvish_lattice.specs.Elements.{elements};

    ghost Value = { List V };

    ghost view = { λ s. elements s.stored };
}

/// A row with an element that doesn't come behind the others.
fn broken<V: Plain>(alloc: Global, row: &Row<V>, x: V) -> Result<Stored<V>, AllocError>
    ensures { IfOk result (λ s. elements s ≡ sorted_merge V.cmp true (x ∷ []) row.now) }
{
    let mut tree = tree_of_row(alloc, row)?;
    put_in_tree(&mut tree, x)?;
    Ok(Stored::Tree(Box::new(alloc, tree)?))
}

/// A row with elements that don't come behind the others.
fn broken_by_all<V: Plain>(
    alloc: Global,
    row: &Row<V>,
    missing: &[V],
) -> Result<Stored<V>, AllocError>
    requires values { IsStrictlySortedBy V.cmp missing.now }
    requires apart { AreApart V.cmp row.now missing.now }
    ensures { IfOk result (λ s. elements s ≡ sorted_merge V.cmp true missing.now row.now) }
{
    let mut tree = tree_of_row(alloc, row)?;
    put_all_in_tree(&mut tree, missing)?;
    Ok(Stored::Tree(Box::new(alloc, tree)?))
}

/// A row of the first elements.
fn first_row<V: Plain>(alloc: Global, values: Vec<V>) -> Result<Stored<V>, AllocError>
    requires { IsStrictlySortedBy V.cmp values.items }
    ensures { IfOk result (λ s. elements s ≡ sorted_merge V.cmp true values.items []) }
{
    Ok(Stored::Row(Row::of(alloc, values)?))
}

/// One element, with others.
fn spread<V: Plain>(alloc: Global, x: V, missing: &[V]) -> Result<Stored<V>, AllocError>
    requires values { IsStrictlySortedBy V.cmp missing.now }
    requires apart { AreApart V.cmp (x ∷ []) missing.now }
    ensures { IfOk result (λ s. elements s ≡ sorted_merge V.cmp true missing.now (x ∷ [])) }
{
    let mut row = Row::of_one(alloc, x)?;
    if row.goes_on(missing) {
        row.push_all(missing)?;
        return Ok(Stored::Row(row));
    }
    broken_by_all(alloc, &row, missing)
}

/// One element, with another.
fn grown<V: Plain>(alloc: Global, y: V, x: V) -> Result<Stored<V>, AllocError>
    ensures { IfOk result (λ s. elements s ≡ sorted_merge V.cmp true (x ∷ []) (y ∷ [])) }
{
    match y.cmp(&x) {
        Ordering::Less => Ok(Stored::Row(Row::of_two(alloc, y, x)?)),
        Ordering::Equal => Ok(Stored::One(y)),
        Ordering::Greater => {
            let tree = tree_of_two(alloc, x, y)?;
            Ok(Stored::Tree(Box::new(alloc, tree)?))
        }
    }
}

impl<V: Plain> Elements<V> {
    /// No elements.
    pub fn new() -> Elements<V>
        ensures { result ≡ [] }
    {
        Elements {
            stored: Stored::Nothing,
        }
    }

    /// One element.
    pub fn one(x: V) -> Elements<V>
        ensures { result ≡ x ∷ [] }
    {
        Elements {
            stored: Stored::One(x),
        }
    }

    /// The values of the list, each once.
    pub fn of(alloc: Global, values: &[V]) -> Result<Elements<V>, AllocError>
        ensures ascending { IfOk result (λ es. IsStrictlySortedBy V.cmp es) }
        ensures members { IfOk result (λ es. (x : V) → Contains es x ↔ Contains values.now x) }
    {
        let mut elements = Elements::new();
        for x in values {
            elements.put(alloc, *x)?;
        }
        Ok(elements)
    }

    /// The elements in ascending order.
    pub fn iter(&self) -> SetIter<'_, V>
        ensures { result ≡ self.now }
    {
        match &self.stored {
            Stored::Nothing => SetIter::of_few(None),
            Stored::One(x) => SetIter::of_few(Some(x)),
            Stored::Row(row) => SetIter::of_row(row.as_slice().iter()),
            Stored::Tree(tree) => SetIter::of_tree(tree.iter()),
        }
    }

    pub fn len(&self) -> usize
        ensures { result ≡ length self.now }
    {
        match &self.stored {
            Stored::Nothing => 0,
            Stored::One(_) => 1,
            Stored::Row(row) => row.as_slice().len(),
            Stored::Tree(tree) => tree.len(),
        }
    }

    /// The only element, where it is in place.
    pub fn only(&self) -> Option<V>
        ensures { MatchOption result ⊤ (λ x. self.now ≡ x ∷ []) }
    {
        match &self.stored {
            Stored::One(x) => Some(*x),
            Stored::Nothing | Stored::Row(_) | Stored::Tree(_) => None,
        }
    }

    pub fn has(&self, x: V) -> bool
        ensures { result ≡ is_member V.eq self.now x }
    {
        match &self.stored {
            Stored::Nothing => false,
            Stored::One(y) => x == *y,
            Stored::Row(row) => row.has(x),
            Stored::Tree(tree) => tree.contains(&Ranked::new(x)),
        }
    }

    /// Puts the value in its place. Answers whether it wasn't there.
    pub fn put(&mut self, alloc: Global, x: V) -> Result<bool, AllocError>
        ensures added { IfOk result (λ added. added ≡ not (is_member V.eq self.old x)) }
        ensures put { IfOk result (λ _. self.new ≡ sorted_merge V.cmp true (x ∷ []) self.old) }
        ensures refused { IfErr result (λ _. self.new ≡ self.old) }
    {
        self.stored = match &mut self.stored {
            Stored::Nothing => Stored::One(x),
            Stored::One(y) if x == *y => return Ok(false),
            Stored::One(y) => grown(alloc, *y, x)?,
            Stored::Row(row) if row.ends_below(x) => return row.push(x),
            Stored::Row(row) if row.has(x) => return Ok(false),
            Stored::Row(row) => broken(alloc, row, x)?,
            Stored::Tree(tree) => return put_in_tree(tree, x),
        };
        Ok(true)
    }

    /// Puts all of the others in their places, or none of them.
    pub fn put_all(&mut self, alloc: Global, others: &Elements<V>) -> Result<(), AllocError>
        requires first { IsStrictlySortedBy V.cmp self.old }
        requires second { IsStrictlySortedBy V.cmp others.now }
        ensures put { IfOk result (λ _. self.new ≡ sorted_merge V.cmp true others.now self.old) }
        ensures refused { IfErr result (λ _. self.new ≡ self.old) }
    {
        let missing = self.beyond(alloc, others)?;
        if missing.is_empty() {
            return Ok(());
        }
        self.put_missing(alloc, missing)
    }

    /// Puts ascending values, of which none is there, in their places, or none of them.
    fn put_missing(&mut self, alloc: Global, missing: Vec<V>) -> Result<(), AllocError>
        requires ascending { IsStrictlySortedBy V.cmp self.old }
        requires values { IsStrictlySortedBy V.cmp missing.items }
        requires apart { AreApart V.cmp self.old missing.items }
        ensures put { IfOk result (λ _. self.new ≡ sorted_merge V.cmp true missing.items self.old) }
        ensures refused { IfErr result (λ _. self.new ≡ self.old) }
    {
        self.stored = match &mut self.stored {
            Stored::Nothing => first_row(alloc, missing)?,
            Stored::One(x) => spread(alloc, *x, &missing)?,
            Stored::Row(row) if row.goes_on(&missing) => return row.push_all(&missing),
            Stored::Row(row) => broken_by_all(alloc, row, &missing)?,
            Stored::Tree(tree) => return put_all_in_tree(tree, &missing),
        };
        Ok(())
    }

    /// The elements of both; the fewer go into a copy of the others.
    pub fn joined(&self, alloc: Global, other: &Elements<V>) -> Result<Elements<V>, AllocError>
        requires first { IsStrictlySortedBy V.cmp self.now }
        requires second { IsStrictlySortedBy V.cmp other.now }
        ensures { IfOk result (λ es. es ≡ sorted_merge V.cmp true self.now other.now) }
    {
        if self.len() <= other.len() {
            let mut joined = other.copy(alloc)?;
            joined.put_all(alloc, self)?;
            return Ok(joined);
        }
        let mut joined = self.copy(alloc)?;
        joined.put_all(alloc, other)?;
        Ok(joined)
    }

    pub fn copy(&self, alloc: Global) -> Result<Elements<V>, AllocError>
        ensures { IfOk result (λ es. es ≡ self.now) }
    {
        match &self.stored {
            Stored::Nothing => Ok(Elements::new()),
            Stored::One(x) => Ok(Elements::one(*x)),
            Stored::Row(row) => Ok(Elements {
                stored: Stored::Row(row.copy(alloc)?),
            }),
            Stored::Tree(tree) => {
                let tree = tree_copy(alloc, tree)?;
                Ok(Elements {
                    stored: Stored::Tree(Box::new(alloc, tree)?),
                })
            }
        }
    }

    pub fn to_vec(&self, alloc: Global) -> Result<Vec<V>, AllocError>
        ensures { IfOk result (λ v. v.items ≡ self.now) }
    {
        let mut values = Vec::with_capacity(alloc, self.len())?;
        for x in self.iter() {
            values.push(*x)?;
        }
        Ok(values)
    }

    /// Whether the other has all of these.
    pub fn is_within(&self, other: &Elements<V>) -> bool
        requires first { IsStrictlySortedBy V.cmp self.now }
        requires second { IsStrictlySortedBy V.cmp other.now }
        ensures { IsTrue result ↔ (sorted_merge V.cmp true self.now other.now ≡ other.now) }
    {
        for x in self.iter() {
            if !other.has(*x) {
                return false;
            }
        }
        true
    }

    /// The others that are not among these.
    pub fn beyond(&self, alloc: Global, others: &Elements<V>) -> Result<Vec<V>, AllocError>
        ensures { IfOk result (λ v. v.items ≡ filter (λ e. not (is_member V.eq self.now e)) others.now) }
    {
        let mut beyond = Vec::new(alloc);
        for x in others.iter() {
            if !self.has(*x) {
                beyond.push(*x)?;
            }
        }
        Ok(beyond)
    }

    pub fn is_equal(&self, other: &Elements<V>) -> bool
        ensures { result ≡ pointwise V.eq self.now other.now }
    {
        let mut first = self.iter();
        let mut second = other.iter();
        loop {
            match (first.next(), second.next()) {
                (None, None) => return true,
                (Some(x), Some(y)) if *x == *y => {}
                _ => return false,
            }
        }
    }
}

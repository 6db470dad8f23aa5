ghost use Rattle.std.specs.Prelude.{◌≡◌, ◌∷◌, [], IfOk, IfErr, MatchOption, is_some, unwrap_or, true, false, map, length, ◌&&◌};
ghost use Rattle.std.specs.Option.{option_copied};
ghost use Rattle.std.specs.BTreeMap.{insert_entry};
ghost use Rattle.std.specs.Cmp.Lexicographic.{pointwise};
ghost use Rattle.std.specs.List.Sorted.{IsStrictlySortedBy};
ghost use Rattle.lvish_lattice.specs.Lattice.{fresh_of, IsOutcome};
ghost use Rattle.lvish_compound.specs.Keyed.{key, has_no, add, at};
ghost use Rattle.lvish_compound.specs.Stored.{few, entries};

use crate::entry_iter::EntryIter;
use crate::key::Key;
use crate::tree::Tree;
use lvish_lattice::{Brought, Lattice};
use std::alloc::{AllocError, Global};
use std::marker::Model;

/// At most one entry in place, as most puts have it, else a tree.
pub(crate) enum Stored<K: Key, L> {
    Few(Option<(K, L)>),
    Tree(Tree<K, L>),
}

// Written out, so that it is proved once, and not at each exit of a function that owns one.
impl<K: Key, L: Drop> Drop for Stored<K, L> {
    fn drop(self) {
        match self {
            Stored::Few(_) => {}
            Stored::Tree(_) => {}
        }
    }
}

/// Keys with their parts, seen as the list of entries in the order of the keys.
pub struct Entries<K: Key, L> {
    stored: Stored<K, L>,
    alloc: Global,
}

// Written out, so that it is proved once, and not at each exit of a function that owns one.
impl<K: Key, L: Drop> Drop for Entries<K, L> {
    fn drop(self) {
        let Entries {
            stored: _,
            alloc: _,
        } = self;
    }
}

impl<K: Key, L> Model for Entries<K, L> {
    ghost use Rattle.std.specs.Prelude.{List};
    ghost use Rattle.lvish_compound.specs.Stored.{entries};

    ghost Value = { List (K × L) };

    ghost view = { λ s. entries s.stored };
}

/// At most one entry, into which a copy of another was put.
fn grown<K: Key, L: Lattice>(
    alloc: Global,
    held: &Option<(K, L)>,
    of: K,
    part: &L,
) -> Result<Stored<K, L>, AllocError>
    ensures { IfOk result (λ s. entries s ≡ insert_entry K.cmp (few held.now) of part.now) }
{
    let part = part.copy(alloc)?;
    let Some((key, held)) = held else {
        return Ok(Stored::Few(Some((of, part))));
    };
    let first = (*key, held.copy(alloc)?);
    Ok(Stored::Tree(Tree::of_two(alloc, first, (of, part))?))
}

impl<K: Key, L> Entries<K, L> {
    pub fn new(alloc: Global) -> Entries<K, L>
        ensures { result ≡ [] }
    {
        Entries {
            stored: Stored::Few(None),
            alloc,
        }
    }

    /// One entry.
    pub fn one(alloc: Global, key: K, part: L) -> Entries<K, L>
        ensures { result ≡ (key, part) ∷ [] }
    {
        Entries {
            stored: Stored::Few(Some((key, part))),
            alloc,
        }
    }

    /// The entries in the order of their keys.
    pub fn iter(&self) -> EntryIter<'_, K, L>
        ensures same { result ≡ self.now }
        ensures ascending { IsStrictlySortedBy K.cmp (map key self.now) }
    {
        match &self.stored {
            Stored::Few(None) => EntryIter::of_few(None),
            Stored::Few(Some((key, part))) => EntryIter::of_few(Some((key, part))),
            Stored::Tree(tree) => EntryIter::of_tree(tree.iter()),
        }
    }

    pub fn alloc(&self) -> Global {
        self.alloc
    }

    /// The only entry, `None` where there is none, or more than one.
    pub fn only(&self) -> Option<(&K, &L)>
        ensures { MatchOption result (length self.now ≡ 1 → ⊥) (λ e. self.now ≡ (e.0.now, e.1.now) ∷ []) }
    {
        match &self.stored {
            Stored::Few(None) => None,
            Stored::Few(Some((key, part))) => Some((key, part)),
            Stored::Tree(tree) => tree.only(),
        }
    }

    pub fn is_equal(&self, other: &Entries<K, L>) -> bool
    where
        L: PartialEq,
        ensures { result ≡ pointwise (λ p q. K.eq p.0 q.0 && L.eq p.1 q.1) self.now other.now }
    {
        let mut first = self.iter();
        let mut second = other.iter();
        loop {
            match (first.next(), second.next()) {
                (None, None) => return true,
                (Some(x), Some(y)) if *x.0 == *y.0 && *x.1 == *y.1 => {}
                _ => return false,
            }
        }
    }
}

impl<K: Key, L: Lattice> Entries<K, L> {
    /// The part that the key holds, `None` where it holds bottom.
    pub fn get(&self, of: K) -> Option<&L>
        ensures { unwrap_or (option_copied result) L.least ≡ at K.cmp L.least L.joined self.now of }
    {
        match &self.stored {
            Stored::Few(None) => None,
            Stored::Few(Some((key, part))) => {
                if of == *key {
                    return Some(part);
                }
                None
            }
            Stored::Tree(tree) => tree.get(of),
        }
    }

    /// Puts a copy of the part in its place, and answers true.
    fn put_copy(&mut self, alloc: Global, of: K, part: &L) -> Result<bool, AllocError>
        ensures put { IfOk result (λ b. (b ≡ true) × (self.new ≡ insert_entry K.cmp self.old of part.now)) }
        ensures refused { IfErr result (λ _. self.new ≡ self.old) }
    {
        self.stored = match &mut self.stored {
            Stored::Few(held) => grown(alloc, held, of, part)?,
            Stored::Tree(tree) => return tree.put_copy(alloc, of, part),
        };
        Ok(true)
    }

    pub fn copy(&self, alloc: Global) -> Result<Entries<K, L>, AllocError>
        ensures { IfOk result (λ es. es ≡ self.now) }
    {
        let stored = match &self.stored {
            Stored::Few(None) => Stored::Few(None),
            Stored::Few(Some((key, part))) => Stored::Few(Some((*key, part.copy(alloc)?))),
            Stored::Tree(tree) => Stored::Tree(tree.copy(alloc)?),
        };
        Ok(Entries { stored, alloc })
    }

    /// Joins the part to what the key holds. Answers false, and changes nothing, where that is top.
    pub fn join_at(&mut self, alloc: Global, of: K, part: &L) -> Result<bool, AllocError>
        ensures added { IfOk result (λ b. (b ≡ is_some (add K.cmp L.least L.joined of part.now self.old)) × (self.new ≡ unwrap_or (add K.cmp L.least L.joined of part.now self.old) self.old)) }
        ensures refused { IfErr result (λ _. self.new ≡ self.old) }
    {
        match &mut self.stored {
            Stored::Few(held) => match held {
                None => self.put_copy(alloc, of, part),
                Some((key, held)) => {
                    if of == *key {
                        return held.merge(alloc, part);
                    }
                    self.put_copy(alloc, of, part)
                }
            },
            Stored::Tree(tree) => tree.join_at(alloc, of, part),
        }
    }

    /// Joins a part that isn't bottom to what the key holds, after which no key holds bottom.
    pub fn add(&mut self, alloc: Global, of: K, part: &L) -> Result<bool, AllocError>
        requires ascending { IsStrictlySortedBy K.cmp (map key self.old) }
        requires above { has_no L.eq L.least self.old ≡ true }
        requires part { L.eq part.now L.least ≡ false }
        ensures added { IfOk result (λ b. (b ≡ is_some (add K.cmp L.least L.joined of part.now self.old)) × (self.new ≡ unwrap_or (add K.cmp L.least L.joined of part.now self.old) self.old)) }
        ensures refused { IfErr result (λ _. self.new ≡ self.old) }
        ensures ascending { IsStrictlySortedBy K.cmp (map key self.new) }
        ensures above { has_no L.eq L.least self.new ≡ true }
    {
        self.join_at(alloc, of, part)
    }

    /// Joins the part to what the key holds, and says what it brought there, as `Lattice::merge_one`.
    fn merge_one_at(
        &mut self,
        alloc: Global,
        of: K,
        part: &L,
    ) -> Result<Brought<L::Event>, AllocError>
        ensures merged { IfOk result (λ b. IsOutcome (add K.cmp L.least L.joined of part.now self.old) (fresh_of L.joined L.Event.eq L.events_of (at K.cmp L.least L.joined self.old of) part.now) self.old self.new b) }
        ensures refused { IfErr result (λ _. self.new ≡ self.old) }
    {
        match &mut self.stored {
            Stored::Few(held) => match held {
                None => Ok(Brought::Listed),
                Some((key, held)) => {
                    if of == *key {
                        return held.merge_one(alloc, part);
                    }
                    Ok(Brought::Listed)
                }
            },
            Stored::Tree(tree) => tree.merge_one_at(alloc, of, part),
        }
    }

    /// The same of a part that isn't bottom, after which no key holds bottom.
    pub fn add_one(
        &mut self,
        alloc: Global,
        of: K,
        part: &L,
    ) -> Result<Brought<L::Event>, AllocError>
        requires ascending { IsStrictlySortedBy K.cmp (map key self.old) }
        requires above { has_no L.eq L.least self.old ≡ true }
        requires part { L.eq part.now L.least ≡ false }
        ensures merged { IfOk result (λ b. IsOutcome (add K.cmp L.least L.joined of part.now self.old) (fresh_of L.joined L.Event.eq L.events_of (at K.cmp L.least L.joined self.old of) part.now) self.old self.new b) }
        ensures refused { IfErr result (λ _. self.new ≡ self.old) }
        ensures ascending { IsStrictlySortedBy K.cmp (map key self.new) }
        ensures above { has_no L.eq L.least self.new ≡ true }
    {
        self.merge_one_at(alloc, of, part)
    }
}

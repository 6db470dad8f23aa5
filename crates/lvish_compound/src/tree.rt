ghost use Rattle.std.specs.Prelude.{◌≡◌, ◌∷◌, [], IfOk, IfErr, MatchOption, is_some, unwrap_or, true, map, length};
ghost use Rattle.std.specs.Option.{option_copied};
ghost use Rattle.std.specs.BTreeMap.{insert_entry};
ghost use Rattle.std.specs.List.Sorted.{IsStrictlySortedBy};
ghost use Rattle.lvish_lattice.specs.Lattice.{fresh_of, IsOutcome};
ghost use Rattle.lvish_lattice.specs.declared.brought.Brought.TheVariants.{Listed};
ghost use Rattle.lvish_compound.specs.Keyed.{key, add, at};

use crate::block::{Block, first_part};
use crate::block_iter::BlockIter;
use crate::key::Key;
use lvish_lattice::{Brought, Lattice, Ranked};
use std::alloc::{AllocError, Global};
use std::collections::BTreeMap;
use std::collections::btree_map::Entry;
use std::marker::Model;

/// Entries in a tree of blocks, seen as their list in the order of the keys.
///
/// The keys of a block are neighbours, those with one high part: so most keys that are searched one
/// behind the other stand in one block, and a tree has few nodes.
pub(crate) struct Tree<K: Key, L> {
    blocks: BTreeMap<Ranked<K>, Block<K, L>>,
    count: usize,
}

// Written out, so that it is proved once, and not at each exit of a function that owns one.
impl<K: Key, L: Drop> Drop for Tree<K, L> {
    fn drop(self) {
        let Tree {
            blocks: _,
            count: _,
        } = self;
    }
}

impl<K: Key, L> Model for Tree<K, L> {
    ghost use Rattle.std.specs.Prelude.{List};
    ghost use Rattle.lvish_compound.specs.Blocks.{flat, AreBlocks};

    ghost Value = { List (K × L) };

    ghost view = { λ t. flat t.blocks.entries };

    ghost invariant = { λ t. AreBlocks K.cmp K.high t.blocks.entries t.count };
}

/// The count of all entries after a put into a block: `more` where the block has one more, else `count`.
fn counted(count: usize, more: usize, before: usize, after: usize) -> usize
    ensures stays { before ≡ after → result ≡ count }
    ensures grows { (before ≡ after → ⊥) → result ≡ more }
{
    if before == after {
        return count;
    }
    more
}

impl<K: Key, L> Tree<K, L> {
    fn new(alloc: Global) -> Tree<K, L>
        ensures { result ≡ [] }
    {
        Tree {
            blocks: BTreeMap::new(alloc),
            count: 0,
        }
    }

    /// The entries in the order of their keys.
    pub(crate) fn iter(&self) -> BlockIter<'_, K, L>
        ensures same { result ≡ self.now }
        ensures ascending { IsStrictlySortedBy K.cmp (map key self.now) }
    {
        BlockIter::of_blocks(self.blocks.iter(), self.count)
    }

    /// The only entry, `None` where there is none, or more than one.
    pub(crate) fn only(&self) -> Option<(&K, &L)>
        ensures { MatchOption result (length self.now ≡ 1 → ⊥) (λ e. self.now ≡ (e.0.now, e.1.now) ∷ []) }
    {
        if self.count != 1 {
            return None;
        }
        self.iter().next()
    }
}

impl<K: Key, L: Lattice> Tree<K, L> {
    /// Puts an entry in its place.
    fn insert(&mut self, alloc: Global, key: K, part: L) -> Result<(), AllocError>
        ensures inserted { IfOk result (λ _. self.new ≡ insert_entry K.cmp self.old key part) }
        ensures refused { IfErr result (λ _. self.new ≡ self.old) }
    {
        let Some(more) = self.count.checked_add(1) else {
            return Err(AllocError);
        };
        let place = self.blocks.entry(Ranked::new(key.high()))?;
        match place {
            Entry::Occupied(held) => {
                let block = held.into_mut();
                let before = block.len();
                let put = block.put(alloc, key, part);
                self.count = counted(self.count, more, before, block.len());
                put
            }
            Entry::Vacant(room) => {
                room.insert(Block::of_one((key, part)));
                self.count = more;
                Ok(())
            }
        }
    }

    /// A tree of the first entry, into which the second was put.
    pub(crate) fn of_two(
        alloc: Global,
        first: (K, L),
        second: (K, L),
    ) -> Result<Tree<K, L>, AllocError>
        ensures { IfOk result (λ t. t ≡ insert_entry K.cmp (first ∷ []) second.0 second.1) }
    {
        let mut tree = Tree::new(alloc);
        tree.insert(alloc, first.0, first.1)?;
        tree.insert(alloc, second.0, second.1)?;
        Ok(tree)
    }

    /// The part that the key holds, `None` where it holds bottom.
    pub(crate) fn get(&self, of: K) -> Option<&L>
        ensures { unwrap_or (option_copied result) L.least ≡ at K.cmp L.least L.joined self.now of }
    {
        match self.blocks.get(&Ranked::new(of.high())) {
            Some(block) => block.find(of),
            None => None,
        }
    }

    /// Puts a copy of the part in its place, and answers true.
    pub(crate) fn put_copy(&mut self, alloc: Global, of: K, part: &L) -> Result<bool, AllocError>
        ensures put { IfOk result (λ b. (b ≡ true) × (self.new ≡ insert_entry K.cmp self.old of part.now)) }
        ensures refused { IfErr result (λ _. self.new ≡ self.old) }
    {
        let part = part.copy(alloc)?;
        self.insert(alloc, of, part)?;
        Ok(true)
    }

    pub(crate) fn copy(&self, alloc: Global) -> Result<Tree<K, L>, AllocError>
        ensures { IfOk result (λ t. t ≡ self.now) }
    {
        let mut entries = Tree::new(alloc);
        for (key, part) in self.iter() {
            entries.put_copy(alloc, *key, part)?;
        }
        Ok(entries)
    }

    /// Joins the part to what the key holds. Answers false, and changes nothing, where that is top.
    ///
    /// There is one search for the block of the key, whether it is there or not.
    pub(crate) fn join_at(&mut self, alloc: Global, of: K, part: &L) -> Result<bool, AllocError>
        ensures added { IfOk result (λ b. (b ≡ is_some (add K.cmp L.least L.joined of part.now self.old)) × (self.new ≡ unwrap_or (add K.cmp L.least L.joined of part.now self.old) self.old)) }
        ensures refused { IfErr result (λ _. self.new ≡ self.old) }
    {
        let Some(more) = self.count.checked_add(1) else {
            return Err(AllocError);
        };
        let place = self.blocks.entry(Ranked::new(of.high()))?;
        let room = match place {
            Entry::Occupied(held) => {
                let block = held.into_mut();
                let before = block.len();
                let joined = block.join_at(alloc, of, part);
                self.count = counted(self.count, more, before, block.len());
                return joined;
            }
            Entry::Vacant(room) => room,
        };
        let copied = || -> Result<Block<K, L>, AllocError>
            ensures { IfOk result (λ b. b ≡ (of, part.entry.now) ∷ []) }
        { Ok(Block::of_one((of, part.copy(alloc)?))) };
        Entry::Vacant(room).or_try_insert_with(copied)?;
        self.count = more;
        Ok(true)
    }

    /// Joins the part to what the key holds, and says what it brought there, as `Lattice::merge_one`.
    ///
    /// There is one search for the block of the key, whether it is there or not.
    pub(crate) fn merge_one_at(
        &mut self,
        alloc: Global,
        of: K,
        part: &L,
    ) -> Result<Brought<L::Event>, AllocError>
        ensures merged { IfOk result (λ b. IsOutcome (add K.cmp L.least L.joined of part.now self.old) (fresh_of L.joined L.Event.eq L.events_of (at K.cmp L.least L.joined self.old of) part.now) self.old self.new b) }
        ensures refused { IfErr result (λ _. self.new ≡ self.old) }
    {
        let Some(more) = self.count.checked_add(1) else {
            return Err(AllocError);
        };
        let place = self.blocks.entry(Ranked::new(of.high()))?;
        let room = match place {
            Entry::Occupied(held) => {
                let block = held.into_mut();
                let before = block.len();
                let merged = block.merge_one_at(alloc, of, part);
                self.count = counted(self.count, more, before, block.len());
                return merged;
            }
            Entry::Vacant(room) => room,
        };
        let (first, brought) = first_part(alloc, part);
        // Where a list has to say what is brought, no part is put, and the entries stay.
        let told = || -> Result<Block<K, L>, AllocError>
            ensures { IfOk result (λ b. (b ≡ (of, first) ∷ []) × (brought ≡ Listed → ⊥)) }
        {
            match brought {
                Brought::Listed => Err(AllocError),
                _ => Ok(Block::of_one((of, first))),
            }
        };
        let Ok(_) = Entry::Vacant(room).or_try_insert_with(told) else {
            return Ok(Brought::Listed);
        };
        self.count = more;
        Ok(brought)
    }
}

ghost use Rattle.std.specs.Prelude.{◌≡◌, length};
ghost use Rattle.std.specs.Iterator.{at_most};
ghost use Rattle.std.specs.Map.Iter.{TakesFirst, deref_pair};
ghost use Rattle.lvish_compound.specs.Blocks.{flat, AllFull};

use crate::block::{Block, Held};
use lvish_lattice::Ranked;
use std::collections::btree_map;
use std::marker::Model;
use std::slice;

/// What is left of the entries of some blocks: those of one block, and the blocks behind it.
#[derive(Drop)]
pub(crate) struct BlockIter<'a, K, L> {
    parts: slice::Iter<'a, (K, L)>,
    blocks: btree_map::Iter<'a, Ranked<K>, Block<K, L>>,
    count: usize,
}

impl<'a, K, L> Model for BlockIter<'a, K, L> {
    ghost use Rattle.std.specs.Prelude.{List, ◌≡◌, ◌++◌, length};
    ghost use Rattle.std.specs.Slice.Iter.{iter_rest};
    ghost use Rattle.lvish_compound.specs.Blocks.{flat, AllFull};

    ghost Value = { List (K × L) };

    ghost view = { λ t. iter_rest t.parts ++ flat t.blocks };

    ghost invariant = { λ t. AllFull t.blocks × (t.count ≡ length (iter_rest t.parts ++ flat t.blocks)) };
}

impl<'a, K, L> BlockIter<'a, K, L> {
    /// The entries of all blocks, and how many these are.
    pub fn of_blocks(
        blocks: btree_map::Iter<'a, Ranked<K>, Block<K, L>>,
        count: usize,
    ) -> BlockIter<'a, K, L>
        requires full { AllFull blocks }
        requires counted { count ≡ length (flat blocks) }
        ensures { result ≡ flat blocks.entry }
    {
        BlockIter {
            parts: [].iter(),
            blocks,
            count,
        }
    }
}

impl<'a, K, L> Iterator for BlockIter<'a, K, L> {
    type Item = (&'a K, &'a L);

    ghost next_gives = { TakesFirst deref_pair };

    ghost remaining = { λ s. at_most (length s) };

    fn next(&mut self) -> Option<(&'a K, &'a L)> {
        if let Some(entry) = self.parts.next() {
            self.count -= 1;
            return Some((&entry.0, &entry.1));
        }
        let (_, block) = self.blocks.next()?;
        self.count -= 1;
        match block.held() {
            Held::One(entry) => Some((&entry.0, &entry.1)),
            Held::Many(entries) => {
                self.parts = entries.iter();
                let entry = self.parts.next()?;
                Some((&entry.0, &entry.1))
            }
        }
    }
}

impl<'a, K, L> ExactSizeIterator for BlockIter<'a, K, L> {
    fn len(&self) -> usize {
        self.count
    }
}

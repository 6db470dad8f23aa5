ghost use Rattle.std.specs.Prelude.{◌≡◌, length, option_map};
ghost use Rattle.std.specs.Iterator.{at_most};
ghost use Rattle.std.specs.Map.Iter.{TakesFirst, deref_pair};
ghost use Rattle.lvish_compound.specs.Stored.{few};

use crate::block_iter::BlockIter;
use std::marker::Model;

/// What is left of at most one entry, or of a tree.
#[derive(Drop)]
pub(crate) enum Rest<'a, K, L> {
    Few(Option<(&'a K, &'a L)>),
    Tree(BlockIter<'a, K, L>),
}

/// The entries of a map in the order of their keys.
#[derive(Drop)]
pub struct EntryIter<'a, K, L> {
    rest: Rest<'a, K, L>,
}

impl<'a, K, L> Model for EntryIter<'a, K, L> {
    ghost use Rattle.std.specs.Prelude.{List};
    ghost use Rattle.lvish_compound.specs.Stored.{left};

    ghost Value = { List (K × L) };

    ghost view = { λ s. left s.rest };
}

impl<'a, K, L> EntryIter<'a, K, L> {
    /// At most one entry.
    pub(crate) fn of_few(held: Option<(&'a K, &'a L)>) -> EntryIter<'a, K, L>
        ensures { result ≡ few (option_map deref_pair held.entry) }
    {
        EntryIter {
            rest: Rest::Few(held),
        }
    }

    /// The entries of a tree.
    pub(crate) fn of_tree(entries: BlockIter<'a, K, L>) -> EntryIter<'a, K, L>
        ensures { result ≡ entries.entry }
    {
        EntryIter {
            rest: Rest::Tree(entries),
        }
    }
}

impl<'a, K, L> Iterator for EntryIter<'a, K, L> {
    type Item = (&'a K, &'a L);

    ghost next_gives = { TakesFirst deref_pair };

    ghost remaining = { λ s. at_most (length s) };

    fn next(&mut self) -> Option<(&'a K, &'a L)> {
        match &mut self.rest {
            Rest::Few(held) => held.take(),
            Rest::Tree(entries) => entries.next(),
        }
    }
}

impl<'a, K, L> ExactSizeIterator for EntryIter<'a, K, L> {
    fn len(&self) -> usize {
        match &self.rest {
            Rest::Few(None) => 0,
            Rest::Few(Some(_)) => 1,
            Rest::Tree(entries) => entries.len(),
        }
    }
}

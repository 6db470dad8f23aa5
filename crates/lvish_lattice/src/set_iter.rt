ghost use Rattle.std.specs.Prelude.{◌≡◌, length};
ghost use Rattle.std.specs.Iterator.{at_most};
ghost use Rattle.std.specs.Option.{option_copied};
ghost use Rattle.std.specs.Slice.Iter.{iter_rest};
ghost use Rattle.std.specs.Map.Iter.{TakesFirst, deref};
ghost use Rattle.lvish_lattice.specs.Elements.{few};

use crate::ranked::Ranked;
use std::collections::btree_set;
use std::marker::Model;
use std::slice;

/// What is left of at most one element, of a row, or of a tree.
#[derive(Drop)]
pub(crate) enum Rest<'a, V> {
    Few(Option<&'a V>),
    Row(slice::Iter<'a, V>),
    Tree(btree_set::Iter<'a, Ranked<V>>),
}

/// The elements of a set in ascending order.
#[derive(Drop)]
pub struct SetIter<'a, V> {
    rest: Rest<'a, V>,
}

impl<'a, V> Model for SetIter<'a, V> {
    ghost use Rattle.std.specs.Prelude.{List};
    ghost use Rattle.lvish_lattice.specs.Elements.{left};

    ghost Value = { List V };

    ghost view = { λ s. left s.rest };
}

impl<'a, V> SetIter<'a, V> {
    /// At most one element.
    pub(crate) fn of_few(held: Option<&'a V>) -> SetIter<'a, V>
        ensures { result ≡ few (option_copied held.entry) }
    {
        SetIter {
            rest: Rest::Few(held),
        }
    }

    /// The elements of a row.
    pub(crate) fn of_row(items: slice::Iter<'a, V>) -> SetIter<'a, V>
        ensures { result ≡ iter_rest items.entry }
    {
        SetIter {
            rest: Rest::Row(items),
        }
    }

    /// The elements of a tree.
    pub(crate) fn of_tree(keys: btree_set::Iter<'a, Ranked<V>>) -> SetIter<'a, V>
        ensures { result ≡ keys.entry }
    {
        SetIter {
            rest: Rest::Tree(keys),
        }
    }
}

impl<'a, V> Iterator for SetIter<'a, V> {
    type Item = &'a V;

    ghost next_gives = { TakesFirst deref };

    ghost remaining = { λ s. at_most (length s) };

    fn next(&mut self) -> Option<&'a V> {
        match &mut self.rest {
            Rest::Few(held) => held.take(),
            Rest::Row(items) => items.next(),
            Rest::Tree(keys) => match keys.next() {
                Some(key) => Some(key.get()),
                None => None,
            },
        }
    }
}

ghost use Rattle.std.specs.Prelude.{◌≡◌};

use crate::key::Key;
use crate::map_of::MapOf;
use lvish_lattice::{Lattice, Reads};
use std::hash::Hash;

/// A read of what one key holds.
#[derive(Drop)]
pub struct AtKey<K, R> {
    pub key: K,
    pub read: R,
}

impl<K: Key + Hash, L: Reads> Reads for MapOf<K, L> {
    ghost use Rattle.lvish_compound.specs.MapReads.{Member, answer_of, spot_of, watched};

    type Read = AtKey<K, L::Read>;

    type Answer = L::Answer;

    type Spot = (K, L::Spot);

    ghost member = { Member L.member };

    ghost answer_of = { answer_of L.answer_of };

    ghost spot_of = { spot_of L.spot_of };

    ghost watched = { watched L.watched };

    fn check(read: &AtKey<K, L::Read>) -> bool {
        L::check(&read.read)
    }

    fn trigger(read: &AtKey<K, L::Read>, state: &MapOf<K, L>) -> Option<L::Answer> {
        match state.get(read.key) {
            Some(part) => L::trigger(&read.read, part),
            None => L::trigger(&read.read, &L::bottom(state.alloc())),
        }
    }

    fn spot(event: &(K, L::Event)) -> (K, L::Spot) {
        (event.0, L::spot(&event.1))
    }

    fn watch(read: &AtKey<K, L::Read>) -> Option<(K, L::Spot)> {
        match L::watch(&read.read) {
            Some(spot) => Some((read.key, spot)),
            None => None,
        }
    }

    ghost use Rattle.lvish_lattice.specs.Ascending.{ties_are_same};
    ghost use Rattle.lvish_compound.specs.laws.MapLaws.{events_by_ties, map_answers, map_waits};

    ghost waits = { map_waits K.Ord.total (ties_are_same K.cmp K.identical K.matches_eq) L.is_join (L.Eq.laws).refl L.Lattice.identical L.Event.cmp L.Event.Ord.total (ties_are_same L.Event.cmp L.Event.identical L.Event.matches_eq) (events_by_ties L.Event.matches_eq L.has_events) K.eq L.Event.eq K.matches_eq L.Event.matches_eq L.spot_of L.watched L.answer_of L.waits };

    ghost answers = { map_answers K.Ord.total (ties_are_same K.cmp K.identical K.matches_eq) L.is_join (L.Eq.laws).refl L.Lattice.identical L.member L.answer_of L.answers };
}

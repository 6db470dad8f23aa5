//! Where the joins are top, as contracts of functions with no code.

ghost use Rattle.lvish_lattice.specs.Top.{IsTopWhere, TwoValues};
ghost use Rattle.lvish_compound.specs.Clashes.{JoinToTop, AtSomeKey, AtSomeSide, PartsClash, Clash};
ghost use Rattle.lvish_compound.specs.Tally.{IsPastTotal, IsTotalOfEvents, AreReached, AreGrowing};

use crate::any::Any;
use crate::key::Key;
use crate::map_of::MapOf;
use crate::pair::Pair;
use crate::part::Part;
use crate::tally::Tally;
use lvish_lattice::laws::cells_join_to_top_at_two_values;
use lvish_lattice::{Flat, Lattice, Plain};
use std::hash::Hash;

/// Two maps join to top exactly where, at some key, their parts do.
pub fn maps_join_to_top_at_some_key<K: Key + Hash, L: Lattice>()
    ensures { IsTopWhere ⟦<MapOf<K, L> as Lattice>⟧.joined (AtSomeKey (JoinToTop L.joined)) }
{}

/// Two maps of cells join to top exactly where some key has two values that differ.
pub fn maps_of_cells_join_to_top_at_two_values<K: Key + Hash, V: Plain + Hash>()
    ensures { IsTopWhere ⟦<MapOf<K, Flat<V>> as Lattice>⟧.joined (AtSomeKey TwoValues) }
{
    maps_join_to_top_at_some_key::<K, Flat<V>>();
    cells_join_to_top_at_two_values::<V>();
}

/// Two pairs join to top exactly where a side of theirs does.
pub fn pairs_join_to_top_at_some_side<A: Lattice, B: Lattice>()
    ensures { IsTopWhere ⟦<Pair<A, B> as Lattice>⟧.joined (AtSomeSide (JoinToTop A.joined) (JoinToTop B.joined)) }
{}

/// Two parts join to top exactly where they clash: cells with values that differ, and parts of
/// different kinds that aren't empty.
pub fn parts_join_to_top_where_they_clash()
    ensures { IsTopWhere ⟦<Part as Lattice>⟧.joined PartsClash }
{}

/// Two states of a script's variables join to top exactly where they clash: parts that do, maps
/// with values that differ at some key, pairs with a side that clashes, tallies whose greater amounts
/// add up to more than the highest total, and states of different kinds that aren't bottom.
pub fn states_join_to_top_where_they_clash()
    ensures { IsTopWhere ⟦<Any as Lattice>⟧.joined Clash }
{
    maps_of_cells_join_to_top_at_two_values::<i64, i64>();
}

/// Two tallies join to top exactly where the greater amounts of their keys add up to more than
/// 10,000.
pub fn tallies_join_to_top_past_the_total()
    ensures { IsTopWhere ⟦<Tally as Lattice>⟧.joined IsPastTotal }
{}

/// The total of a tally is the number of its events.
pub fn totals_count_events()
    ensures { IsTotalOfEvents ⟦<Tally as Lattice>⟧.events_of }
{}

/// Below a tally whose total is at least some number there is one whose total is that number, and
/// a tally below another has at most its total.
pub fn totals_are_reached()
    ensures reached { AreReached ⟦<Tally as Lattice>⟧.joined }
    ensures grows { AreGrowing ⟦<Tally as Lattice>⟧.joined }
{}

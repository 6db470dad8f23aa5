//! Where the joins are top, as contracts of functions with no code.

ghost use Rattle.lvish_lattice.specs.Top.{IsTopWhere, IsNeverTop, TwoValues};

use crate::flat::Flat;
use crate::grow_set::GrowSet;
use crate::lattice::{Lattice, Plain};
use crate::max_counter::MaxCounter;
use std::hash::Hash;

/// Two cells join to top exactly where both hold a value and the values differ.
pub fn cells_join_to_top_at_two_values<V: Plain + Hash>()
    ensures { IsTopWhere ⟦<Flat<V> as Lattice>⟧.joined TwoValues }
{}

/// No two sets join to top.
pub fn sets_never_join_to_top<V: Plain + Hash>()
    ensures { IsNeverTop ⟦<GrowSet<V> as Lattice>⟧.joined }
{}

/// No two counters join to top.
pub fn counters_never_join_to_top()
    ensures { IsNeverTop ⟦<MaxCounter as Lattice>⟧.joined }
{}

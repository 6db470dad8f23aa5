//! What sets of listed values have, as a contract of a function with no code.

ghost use Rattle.std.specs.Prelude.{◌↔◌, List, Contains};
ghost use Rattle.lvish_facts.specs.Gathered.{gathered};

use lvish_lattice::{GrowSet, Lattice, Plain};
use std::hash::Hash;

/// A set that is gathered has the listed values and no others.
pub fn gathers<V: Plain + Hash>()
    ensures { (xs : List V) (x : V) → Contains (⟦<GrowSet<V> as Lattice>⟧.events_of (gathered xs)) x ↔ Contains xs x }
{}

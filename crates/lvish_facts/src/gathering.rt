ghost use Rattle.std.specs.Prelude.{◌≡◌, IfOk};
ghost use Rattle.lvish_facts.specs.Gathered.{gathered};

use lvish_lattice::{GrowSet, Plain};
use std::alloc::{AllocError, Global};

/// The set of the listed values, which stand in any order, and may be repeated.
pub fn gather<V: Plain>(alloc: Global, values: &[V]) -> Result<GrowSet<V>, AllocError>
    ensures { IfOk result (λ s. s ≡ gathered values.now) }
{
    GrowSet::of(alloc, values)
}

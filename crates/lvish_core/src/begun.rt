//! Variables and handlers before any step.

ghost use Rattle.std.specs.Prelude.{◌≡◌, [], false, IfOk, replicate};

use lvish_handlers::Handlers;
use lvish_lattice::Lattice;
use lvish_variable::Variable;
use std::alloc::{AllocError, Global};

/// This many variables at bottom.
pub(crate) fn bottoms<L: Lattice>(
    alloc: Global,
    count: usize,
) -> Result<Vec<Variable<L>>, AllocError>
    ensures { IfOk result (λ v. v.items ≡ replicate count (record { state = L.least; frozen = false; log = [] })) }
{
    let mut variables = Vec::with_capacity(alloc, count)?;
    for _variable in 0..count {
        variables.push(Variable::new(alloc))?;
    }
    Ok(variables)
}

/// No handlers for each of this many variables, and beside each a count for every pool.
pub(crate) fn no_handlers<L: Lattice>(
    alloc: Global,
    count: usize,
    pools: usize,
) -> Result<Vec<Handlers<L>>, AllocError>
    ensures { IfOk result (λ v. v.items ≡ replicate count (record { held = []; running = replicate pools 0 })) }
{
    let mut handlers = Vec::with_capacity(alloc, count)?;
    for _variable in 0..count {
        handlers.push(Handlers::new(alloc, pools)?)?;
    }
    Ok(handlers)
}

ghost use Rattle.std.specs.Prelude.{◌≡◌, ◌<◌, ◌↔◌, IfOk, length, true};
ghost use Rattle.lvish_alike.specs.Layered.{IsLayered};
ghost use Rattle.lvish_alike.specs.Deciding.{AreWritten, FreezesWithin, HandlesWithin, AreLayers};
ghost use Rattle.lvish_alike.specs.Parts.{IsMainAlone, NoCallBelow, NoFreeWrite, PoolWritesAreOver};
ghost use Rattle.lvish_alike.specs.Sought.{linked};

use crate::freezes::{are_spared, calls_before, freezes_none, waits_in_time};
use crate::given::{linked_from, written_from};
use crate::link::Link;
use crate::reached::{lead, reached_from};
use crate::sought::{Sought, first};
use lvish_code::{Code, Instruction, Routine};
use std::alloc::{AllocError, Global};

/// Whether `main` freezes each variable of the code after all that write to it.
///
/// # Errors
///
/// `AllocError` where a growth was refused.
pub fn is_layered(alloc: Global, code: &Code) -> Result<bool, AllocError>
    ensures { IfOk result (λ layered. (layered ≡ true) ↔ IsLayered code.now) }
{
    let routines = code.routines();
    let main = code.main();
    let own = routines[main].instructions.as_slice();
    are_layers(alloc, own, routines, code.pools(), code.kinds().len(), main)
}

/// The same of the instructions of `main`, the routines, the pools and the number of variables.
fn are_layers(
    alloc: Global,
    own: &[Instruction],
    routines: &[Routine],
    pools: &[usize],
    variables: usize,
    main: usize,
) -> Result<bool, AllocError>
    requires there { main < length routines.now }
    requires known { FreezesWithin own.now variables }
    requires listed { HandlesWithin routines.now (length pools.now) }
    ensures { IfOk result (λ layers. (layers ≡ true) ↔ AreLayers own.now pools.now main routines.now) }
{
    if !are_spared(own, pools) {
        return Ok(false);
    }
    let alone = is_alone(alloc, routines, main)?;
    if !alone {
        return Ok(false);
    }
    let called = calls_keep(alloc, own, routines, pools, variables)?;
    if !called {
        return Ok(false);
    }
    let free = free_tasks_keep(alloc, own, routines, pools, variables, main)?;
    if !free {
        return Ok(false);
    }
    pools_keep(alloc, own, routines, pools, variables, main)
}

/// Whether nobody names `main`, and nobody else freezes, in routines that a task can run.
fn is_alone(alloc: Global, routines: &[Routine], main: usize) -> Result<bool, AllocError>
    requires { main < length routines.now }
    ensures { IfOk result (λ alone. (alone ≡ true) ↔ IsMainAlone main routines.now) }
{
    let mut can = reached_from(alloc, routines, Link::Names, main)?;
    if first(routines, &can, Sought::Linked(Link::Names, main)).is_some() {
        return Ok(false);
    }
    can[main] = false;
    Ok(first(routines, &can, Sought::Frozen(None)).is_none())
}

/// Whether what `main` calls at a freeze or below it doesn't write to the variable.
fn calls_keep(
    alloc: Global,
    own: &[Instruction],
    routines: &[Routine],
    pools: &[usize],
    variables: usize,
) -> Result<bool, AllocError>
    requires { FreezesWithin own.now variables }
    ensures { IfOk result (λ keep. (keep ≡ true) ↔ NoCallBelow own.now pools.now routines.now) }
{
    for routine in 0..routines.len() {
        let called = reached_from(alloc, routines, Link::Calls, routine)?;
        let written = written_from(alloc, routines, &called, pools, variables)?;
        if !calls_before(own, &written, routine) {
            return Ok(false);
        }
    }
    Ok(true)
}

/// Whether no task of no pool, other than `main`, writes to a variable that is frozen.
fn free_tasks_keep(
    alloc: Global,
    own: &[Instruction],
    routines: &[Routine],
    pools: &[usize],
    variables: usize,
    main: usize,
) -> Result<bool, AllocError>
    requires there { main < length routines.now }
    requires known { FreezesWithin own.now variables }
    ensures { IfOk result (λ keep. (keep ≡ true) ↔ NoFreeWrite own.now pools.now main routines.now) }
{
    let runs = reached_from(alloc, routines, Link::Calls, main)?;
    let written = written_by_tasks(alloc, routines, pools, variables, &runs, Link::Forks)?;
    Ok(freezes_none(own, &written))
}

/// Whether tasks of a pool write to a variable that is frozen only where its freeze, or one above it,
/// waits for the pool.
fn pools_keep(
    alloc: Global,
    own: &[Instruction],
    routines: &[Routine],
    pools: &[usize],
    variables: usize,
    main: usize,
) -> Result<bool, AllocError>
    requires there { main < length routines.now }
    requires known { FreezesWithin own.now variables }
    requires listed { HandlesWithin routines.now (length pools.now) }
    ensures { IfOk result (λ keep. (keep ≡ true) ↔ PoolWritesAreOver own.now pools.now main routines.now) }
{
    let can = reached_from(alloc, routines, Link::Names, main)?;
    for pool in 0..pools.len() {
        let link = Link::Handles(pool);
        let written = written_by_tasks(alloc, routines, pools, variables, &can, link)?;
        if !waits_in_time(own, &written, pool) {
            return Ok(false);
        }
    }
    Ok(true)
}

/// A mark for each variable, set where tasks write to it that instructions of marked routines start
/// by this link.
fn written_by_tasks(
    alloc: Global,
    routines: &[Routine],
    pools: &[usize],
    variables: usize,
    marks: &[bool],
    link: Link,
) -> Result<Vec<bool>, AllocError>
    requires { length marks.now ≡ length routines.now }
    ensures { IfOk result (λ written. AreWritten (linked link) pools.now routines.now marks.now variables written.items) }
{
    let mut reached = linked_from(alloc, routines, marks, link)?;
    lead(routines, Link::Stays, &mut reached);
    written_from(alloc, routines, &reached, pools, variables)
}

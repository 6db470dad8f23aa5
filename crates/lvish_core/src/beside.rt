//! Changes to one variable, or to the handlers of one, among all.

ghost use Rattle.std.specs.Prelude.{◌≡◌, ◌<◌, ◌++◌, ◌∷◌, [], false, if◌then◌else◌, IfOk, IfErr, MatchResult, length};
ghost use Rattle.lvish_core.specs.Beside.{PutAt, RefusedAt, FrozenAt, AddedAt, HandedAt, CountsAt, CanCount, CanHand, IsPostedAt, CanAdd, one_more_in, one_less_in};

use crate::handler_place::HandlerPlace;
use crate::limits::MOST_PROGRAM_STEPS;
use lvish_handlers::{AddFault, Handlers, NothingToHand};
use lvish_lattice::Lattice;
use lvish_names::{HandlerName, TaskName};
use lvish_variable::{PutFault, Variable};
use std::alloc::{AllocError, Global};

/// Puts into the variable of this number.
pub(crate) fn put_at<L: Lattice>(
    variables: &mut [Variable<L>],
    alloc: Global,
    number: usize,
    task: &TaskName<L::Event>,
    puts: u64,
    put: &L,
) -> Result<(), PutFault>
    requires { number < length variables.old }
    ensures ok { IfOk result (λ _. PutAt L.joined L.Event.eq L.events_of task.now puts put.now number variables.old variables.new) }
    ensures why { IfErr result (λ f. RefusedAt L.joined put.now number variables.old f) }
    ensures refused { IfErr result (λ _. variables.new ≡ variables.old) }
{
    variables[number].put(alloc, task, puts, put)
}

/// Freezes the variable of this number.
pub(crate) fn freeze_at<L: Lattice>(variables: &mut [Variable<L>], number: usize)
    requires { number < length variables.old }
    ensures { FrozenAt number variables.old variables.new }
{
    variables[number].mark();
}

/// Adds the variable of this number to the frozen ones, unless it is frozen already.
pub(crate) fn list_freeze<L: Lattice>(
    freezes: &mut Vec<usize>,
    variable: &Variable<L>,
    number: usize,
) -> Result<(), AllocError>
    ensures { MatchResult result (λ _. freezes.new.items ≡ (if variable.now.frozen then freezes.old.items else freezes.old.items ++ number ∷ [])) (λ _. freezes.new.items ≡ freezes.old.items) }
{
    if variable.is_frozen() {
        return Ok(());
    }
    freezes.push(number)?;
    Ok(())
}

/// Adds a handler on the variable, which isn't frozen.
pub(crate) fn add_at<L: Lattice>(
    handlers: &mut [Handlers<L>],
    alloc: Global,
    variable: &Variable<L>,
    name: HandlerName<L::Event>,
    place: HandlerPlace,
) -> Result<(), AllocError>
    requires fits { CanAdd name place handlers.old }
    requires unfrozen { variable.now.frozen ≡ false }
    ensures { MatchResult result
        (λ _. AddedAt (record { name = name; pool = place.pool; procedure = place.procedure; handed = 0 }) place.variable handlers.old handlers.new)
        (λ _. handlers.new ≡ handlers.old) }
{
    let beside = &mut handlers[place.variable];
    match beside.add(alloc, variable, place.pool, name, place.procedure) {
        Ok(()) => Ok(()),
        Err(AddFault::Memory) => Err(AllocError),
        Err(AddFault::Late) => unreachable!("the variable isn't frozen"),
    }
}

/// Counts the event that comes next for the handler, which is at this place among its variable's, as
/// handed, and the task that handles it.
pub(crate) fn hand_at<L: Lattice>(
    handlers: &mut [Handlers<L>],
    variables: &[Variable<L>],
    _name: &HandlerName<L::Event>,
    place: HandlerPlace,
    at: usize,
)
    requires fits { CanHand L.Event.eq variables.now _name.now place handlers.old }
    requires there { IsPostedAt _name.now place at handlers.old }
    ensures { HandedAt L.Event.eq variables.now _name.now place handlers.old handlers.new }
{
    let variable = &variables[place.variable];
    let beside = &mut handlers[place.variable];
    match beside.advance_at(variable, at) {
        Ok(()) => beside.task_started(place.pool),
        Err(NothingToHand) => unreachable!("an event comes next"),
    }
}

/// Counts one more task in the pool, if there is one.
pub(crate) fn start_at<L: Lattice>(handlers: &mut [Handlers<L>], place: Option<HandlerPlace>)
    requires { CanCount (λ n. n < MOST_PROGRAM_STEPS) handlers.old place }
    ensures { CountsAt one_more_in handlers.old place handlers.new }
{
    if let Some(place) = place {
        handlers[place.variable].task_started(place.pool);
    }
}

/// Counts one task fewer in the pool, if there is one.
pub(crate) fn end_at<L: Lattice>(handlers: &mut [Handlers<L>], place: Option<HandlerPlace>)
    requires { CanCount (λ n. 0 < n) handlers.old place }
    ensures { CountsAt one_less_in handlers.old place handlers.new }
{
    if let Some(place) = place {
        handlers[place.variable].task_ended(place.pool);
    }
}

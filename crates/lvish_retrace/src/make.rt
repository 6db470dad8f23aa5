//! Steps of a core that are noted.

ghost use Rattle.std.specs.Prelude.{◌≡◌, IfOk, MatchOption, [], option_map, slice_get, unwrap_or};
ghost use Rattle.lvish_calculus.specs.declared.label.Label.TheVariants.{Act};
ghost use Rattle.lvish_retrace.specs.Brought.{put_variable};
ghost use Rattle.lvish_retrace.specs.Walk.{CantGo, IsGrown, MakesOrStops, StepsOrStops};

use crate::bringer::{Bringer, note_entries};
use lvish_calculus::laws::lawful;
use lvish_calculus::{Asks, Label, Meaning, Program, Request};
use lvish_core::{Core, CoreMeaning, StepFault, Stepped};
use lvish_lattice::{Lattice, Reads};
use lvish_names::TaskName;
use lvish_variable::{Entry, Variable};
use std::alloc::{AllocError, Global};

/// The variable that a request puts into.
fn put_variable<S, R, L>(request: &Request<S, R, L>) -> Option<usize>
    ensures { result ≡ put_variable request.now }
{
    match request {
        Request::Put(variable, _) => Some(*variable),
        _ => None,
    }
}

/// The entries of the log of a variable.
fn log_of<L: Reads>(variables: &[Variable<L>], variable: usize) -> &[Entry<L::Event>]
    ensures { result.now ≡ unwrap_or (option_map (λ x. x.log) (slice_get variables.now variable)) [] }
{
    match variables.get(variable) {
        Some(held) => held.log(),
        None => &[],
    }
}

/// The answer of a get, in the state of its variable.
pub fn answer_in<L: Reads, K>(
    variables: &[Variable<L>],
    request: &Request<L, L::Read, K>,
) -> Option<L::Answer> {
    match request {
        Request::Get(variable, read) => variables.get(*variable)?.read(read),
        _ => None,
    }
}

/// The events of a variable's state.
pub fn events_in<L: Reads>(
    alloc: Global,
    variables: &[Variable<L>],
    variable: usize,
) -> Result<Vec<L::Event>, AllocError> {
    match variables.get(variable) {
        Some(held) => held.state().events(alloc),
        None => Ok(Vec::new(alloc)),
    }
}

/// Makes the task's step, with its request already computed, and notes what it brings. `None` where
/// the core can't make it.
pub fn make<P: Program>(
    alloc: Global,
    core: &mut Core<'_, P>,
    name: &TaskName<<P::Lat as Lattice>::Event>,
    asks: &Asks<P::Lat, <P::Lat as Reads>::Read, P::Local>,
    number: usize,
    brought: &mut Vec<Bringer<<P::Lat as Lattice>::Event>>,
) -> Result<Option<Stepped>, AllocError>
    requires request { ⟦<P as CoreMeaning>⟧.is_its_request core.old name.now asks.now.request }
    requires at { ⟦<P as CoreMeaning>⟧.is_its_place core.old name.now asks.now.at }
    ensures { IfOk result (λ o. MakesOrStops (⟦<P as Meaning>⟧.machine core.old.program) core.old (Act name.now) core.new number brought.old.items brought.new.items o) }
{
    let Some(variable) = put_variable(&asks.request) else {
        return make_alone(alloc, core, name, asks);
    };
    let before = log_of(core.states(), variable).len();
    let Some(said) = make_alone(alloc, core, name, asks)? else {
        return Ok(None);
    };
    let log = log_of(core.states(), variable);
    note_entries(brought, variable, log, before, number)?;
    Ok(Some(said))
}

/// Makes the task's step.
fn make_alone<P: Program>(
    alloc: Global,
    core: &mut Core<'_, P>,
    name: &TaskName<<P::Lat as Lattice>::Event>,
    asks: &Asks<P::Lat, <P::Lat as Reads>::Read, P::Local>,
) -> Result<Option<Stepped>, AllocError>
    requires request { ⟦<P as CoreMeaning>⟧.is_its_request core.old name.now asks.now.request }
    requires at { ⟦<P as CoreMeaning>⟧.is_its_place core.old name.now asks.now.at }
    ensures made { IfOk result (λ o. MatchOption o (CantGo (⟦<P as Meaning>⟧.machine core.old.program) core.old (Act name.now))
        (λ said. IsGrown (⟦<P as Meaning>⟧.machine core.old.program) core.old (Act name.now) core.new said)) }
{
    let _before = core.states();
    match core.step_asked(alloc, name, asks) {
        Ok((said, _moved)) => {
            let _after = core.states();
            Ok(Some(said))
        }
        Err(StepFault::Memory) => Err(AllocError),
        Err(StepFault::NotEnabled | StepFault::Full) => Ok(None),
    }
}

/// Makes a handing. Whether the core can make it.
pub fn hand_on<P: Program>(
    alloc: Global,
    core: &mut Core<'_, P>,
    label: &Label<<P::Lat as Lattice>::Event>,
) -> Result<bool, AllocError>
    ensures { IfOk result (λ made. StepsOrStops (⟦<P as Meaning>⟧.machine core.old.program) core.old label.now core.new made) }
{
    let _before = core.states();
    match core.step(alloc, label) {
        Ok(_said) => {
            let _after = core.states();
            Ok(true)
        }
        Err(StepFault::Memory) => Err(AllocError),
        Err(StepFault::NotEnabled | StepFault::Full) => Ok(false),
    }
}

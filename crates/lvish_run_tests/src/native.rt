//! A program that is no script: a set counts down.

ghost use Rattle.std.specs.Prelude.{◌≡◌, IfOk};
ghost use Rattle.lvish_calculus.specs.declared.request.Request.TheVariants.{Put};
ghost use Rattle.lvish_run_tests.specs.Countdown.{countdown_asks, gone_on, lower_of, main_asks, only, put_asks};

use lvish_calculus::{Asks, Pools, Program, Reply, Request};
use lvish_lattice::{GrowSet, Members};
use lvish_run::Runnable;
use std::alloc::{AllocError, Global};

/// Where a task is in its procedure, and its number.
type At = (usize, i64);

/// main adds a handler, puts the first number, and freezes the set after the handler's tasks. Each of
/// these puts the number below its own, and forks a task.
#[derive(Drop)]
pub struct Countdown {
    pub first: i64,
    /// How many statements its steps are said to come with.
    pub grain: usize,
}

/// The number below.
fn lower(number: i64) -> Option<i64>
    ensures { result ≡ lower_of number }
{
    if number > 0 { Some(number - 1) } else { None }
}

/// What puts a number, if there is one.
fn put(number: Option<i64>) -> Request<GrowSet<i64>, Members<i64>, At>
    ensures { result ≡ put_asks only number }
{
    match number {
        Some(number) => Request::Put(0, GrowSet::one(number)),
        None => Request::End,
    }
}

/// What main asks for.
fn main_asks(
    alloc: Global,
    first: i64,
    place: usize,
) -> Result<Request<GrowSet<i64>, Members<i64>, At>, AllocError>
    ensures { IfOk result (λ r. r ≡ main_asks only first place) }
{
    Ok(match place {
        0 => Request::Add(0, 0),
        1 => put(Some(first)),
        2 => Request::Freeze(0, Pools::from(vec![in alloc; 0]?)),
        _ => Request::End,
    })
}

/// What a task asks for: one that handles a number, one that it forks, or main.
fn asks(
    alloc: Global,
    first: i64,
    local: &At,
) -> Result<Request<GrowSet<i64>, Members<i64>, At>, AllocError>
    ensures { IfOk result (λ r. r ≡ countdown_asks only first local.now) }
{
    let (place, number) = *local;
    match place {
        5 => Ok(put(lower(number))),
        6 => Ok(Request::Fork((7, number))),
        _ => main_asks(alloc, first, place),
    }
}

/// Where a task goes on.
fn after(at: At) -> At
    ensures { result ≡ gone_on at }
{
    let place = if at.0 < 8 { at.0 + 1 } else { at.0 };
    (place, at.1)
}

impl Program for Countdown {
    ghost use Rattle.lvish_run_tests.specs.Countdown.{countdown, countdown_is_program, nat_identical};
    ghost use Rattle.lvish_lattice.specs.Plain.{int_identical, pairs_identical};
    ghost use Rattle.std.specs.Prelude.{refl};

    type Lat = GrowSet<i64>;

    type Local = At;

    ghost functions = { λ p. countdown only p.first };

    fn variables(&self) -> usize {
        1
    }

    fn pool_variable(&self, pool: usize) -> Option<usize> {
        if pool == 0 { Some(0) } else { None }
    }

    fn start(&self, _alloc: Global) -> Result<At, AllocError> {
        Ok((0, 0))
    }

    fn start_handler(
        &self,
        _alloc: Global,
        _procedure: usize,
        event: &i64,
    ) -> Result<At, AllocError> {
        Ok((5, *event))
    }

    fn copy_local(&self, _alloc: Global, local: &At) -> Result<At, AllocError> {
        Ok(*local)
    }

    fn ask(
        &self,
        alloc: Global,
        local: &At,
    ) -> Result<Asks<GrowSet<i64>, Members<i64>, At>, AllocError> {
        Ok(Asks {
            request: asks(alloc, self.first, local)?,
            at: *local,
        })
    }

    fn ask_with(
        &self,
        alloc: Global,
        local: &At,
        _spare: Option<At>,
    ) -> Result<Asks<GrowSet<i64>, Members<i64>, At>, AllocError>
        ensures request { IfOk result (λ a. a.request ≡ countdown_asks only self.now.first local.now) }
        ensures at { IfOk result (λ a. a.at ≡ local.now) }
    {
        self.ask(alloc, local)
    }

    fn resume(
        &self,
        _alloc: Global,
        at: At,
        _reply: Reply<GrowSet<i64>, i64>,
    ) -> Result<At, AllocError>
        ensures { IfOk result (λ l. l ≡ gone_on at) }
    {
        Ok(after(at))
    }

    fn resume_on(&self, _alloc: Global, at: At, _content: &GrowSet<i64>) -> Result<At, AllocError>
        ensures { IfOk result (λ l. l ≡ gone_on at) }
    {
        Ok(after(at))
    }

    ghost identical = { pairs_identical _ _ nat_identical int_identical _ (λ p q. refl) };

    ghost lawful = { λ p. countdown_is_program _ _ only p.first };
}

impl Runnable for Countdown {
    ghost use Rattle.lvish_run_tests.specs.Countdown.{no_countdown};

    ghost blank = { no_countdown };

    fn statements(&self, _at: &At) -> usize {
        self.grain
    }
}

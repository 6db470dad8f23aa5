//! What follows from rules, computed by runs.

ghost use Rattle.std.specs.Prelude.{◌≡◌, ◌<◌, ◌≤◌, ◌⊎◌, IfOk, true, false};
ghost use Rattle.lvish_run.specs.Honest.{IsHonest};
ghost use Rattle.lvish_calculus.specs.declared.request.ErrorKind.{ErrorKind};
ghost use Rattle.lvish_rules.specs.declared.fault.SolveFault.TheVariants.{Erring};
ghost use Rattle.lvish_rules.specs.Answer.{HasExactly, HasOnly, IsAnswerOf, TellsError};
ghost use Rattle.lvish_rules.specs.Rules.{Errs};

use crate::answer::Answer;
use crate::fault::SolveFault;
use crate::laws::{computes_what_follows, deterministic};
use crate::ruled::Ruled;
use crate::rules::Rules;
use lvish_calculus::{Meaning, Program};
use lvish_lattice::{Lattice, Reads};
use lvish_run::{
    MOST_PROGRAM_STEPS, MOST_WORKERS, Open, Outcome, Report, RunFault, run_program,
    run_program_picks,
};
use std::alloc::Global;
use std::sync::Wait;
use std::thread::Threads;

/// What the report tells of relations.
fn answer_of_report<L: Lattice>(report: Report<L, L::Event>) -> Result<Answer<L>, SolveFault>
    ensures told { IfOk result (λ a. IsAnswerOf report a) }
    ensures erring { (kind : ErrorKind) → result ≡ Err (Erring kind) → TellsError report kind }
{
    let is_whole = match &report.outcome {
        Outcome::Ended => true,
        Outcome::Budget => false,
        Outcome::Error { kind, .. } => return Err(SolveFault::Erring(*kind)),
    };
    Ok(Answer::new(report, is_whole))
}

/// The answer by the report of a run of the analysis.
fn answer_of<R: Rules>(
    _analysis: &Ruled<R>,
    _workers: usize,
    _budget: u64,
    report: Report<R::Lat, <R::Lat as Lattice>::Event>,
) -> Result<Answer<R::Lat>, SolveFault>
    requires { IsHonest (⟦<Ruled<R> as Meaning>⟧.machine _analysis.now) (R.rule_set _analysis.now.rules).relations _workers _budget report }
    ensures exact { IfOk result (λ a. a.is_whole ≡ true → HasExactly R.Lat.events_of (R.rule_set _analysis.now.rules) a.states) }
    ensures sound { IfOk result (λ a. HasOnly R.Lat.events_of (R.rule_set _analysis.now.rules) a.states) }
    ensures spent { IfOk result (λ a. a.is_whole ≡ false → a.steps ≡ _budget) }
    ensures erring { (kind : ErrorKind) → result ≡ Err (Erring kind) → Errs R.Lat.joined R.Lat.least R.Lat.events_of (R.rule_set _analysis.now.rules) kind }
{
    computes_what_follows::<R>();
    deterministic::<R>();
    answer_of_report(report)
}

/// The lesser of the budget and [`MOST_PROGRAM_STEPS`].
fn within_limits(budget: u64) -> u64
    ensures small { result ≤ MOST_PROGRAM_STEPS }
    ensures either { (result ≡ budget) ⊎ (result ≡ MOST_PROGRAM_STEPS) }
{
    if budget < MOST_PROGRAM_STEPS {
        budget
    } else {
        MOST_PROGRAM_STEPS
    }
}

/// Computes what follows from the rules by this many workers, in as many steps as the budget has, or
/// 4,294,967,295 if that is less: one for each move, and one for each event that a watch is handed.
///
/// # Errors
///
/// `Erring` where what follows joins to top, or watches make one another past a depth of 64;
/// `Memory` where a growth was refused; `NoThread` where a thread couldn't be started.
pub fn solve<R, H>(
    rt: &H,
    alloc: Global,
    analysis: &Ruled<R>,
    workers: usize,
    budget: u64,
) -> Result<Answer<R::Lat>, SolveFault>
where
    R: Rules + Send + Sync,
    R::Lat: Send + Sync,
    <R::Lat as Lattice>::Event: Send + Sync,
    <R::Lat as Reads>::Read: Send + Sync,
    <R::Lat as Reads>::Answer: Send + Sync,
    <R::Lat as Reads>::Spot: Send + Sync,
    H: Threads + Wait + Sync,
    requires some { 0 < workers }
    requires few { workers ≤ MOST_WORKERS }
    // The events of each relation are exactly those that follow from the rules, if the answer is whole.
    ensures exact { IfOk result (λ a. a.is_whole ≡ true → HasExactly R.Lat.events_of (R.rule_set analysis.now.rules) a.states) }
    // There are no other events, whole or not.
    ensures sound { IfOk result (λ a. HasOnly R.Lat.events_of (R.rule_set analysis.now.rules) a.states) }
    // It is whole, or all steps are used up.
    ensures spent { IfOk result (λ a. a.is_whole ≡ false → (a.steps ≡ budget) ⊎ (a.steps ≡ MOST_PROGRAM_STEPS)) }
    // A conflict is told only where puts that follow join to top, and no other error but depth.
    ensures erring { (kind : ErrorKind) → result ≡ Err (Erring kind) → Errs R.Lat.joined R.Lat.least R.Lat.events_of (R.rule_set analysis.now.rules) kind }
{
    let most = within_limits(budget);
    match run_program(rt, alloc, analysis, workers, most, &Open) {
        Ok(report) => answer_of(analysis, workers, most, report),
        Err(RunFault::Memory) => Err(SolveFault::Memory),
        Err(RunFault::NoThread) => Err(SolveFault::NoThread),
        Err(RunFault::Stopped | RunFault::Mixed) => unreachable!(),
    }
}

/// Computes what follows from the rules on this thread alone, and wants no threads for it; else as [`solve`].
///
/// # Errors
///
/// `Erring` where what follows joins to top, or watches make one another past a depth of 64;
/// `Memory` where a growth was refused.
pub fn solve_alone<R: Rules>(
    alloc: Global,
    analysis: &Ruled<R>,
    budget: u64,
) -> Result<Answer<R::Lat>, SolveFault>
    ensures exact { IfOk result (λ a. a.is_whole ≡ true → HasExactly R.Lat.events_of (R.rule_set analysis.now.rules) a.states) }
    ensures sound { IfOk result (λ a. HasOnly R.Lat.events_of (R.rule_set analysis.now.rules) a.states) }
    ensures spent { IfOk result (λ a. a.is_whole ≡ false → (a.steps ≡ budget) ⊎ (a.steps ≡ MOST_PROGRAM_STEPS)) }
    ensures erring { (kind : ErrorKind) → result ≡ Err (Erring kind) → Errs R.Lat.joined R.Lat.least R.Lat.events_of (R.rule_set analysis.now.rules) kind }
{
    let most = within_limits(budget);
    let report = run_program_picks(alloc, analysis, &[], most)?;
    answer_of(analysis, 1, most, report)
}

ghost use Rattle.std.specs.Prelude.{◌≡◌, ◌≤◌, ◌↔◌, ◌⊎◌, IfOk, false, true};
ghost use Rattle.lvish_alike.specs.Layered.{IsLayered};
ghost use Rattle.lvish_run.specs.Ends.{IsEndWithoutPicks};
ghost use Rattle.lvish_task.specs.Freezing.{code_freezes};

use crate::limits::MOST_STEPS;
use crate::scripts::{RunMeaning, run_picks};
use lvish_alike::is_layered;
use lvish_alike::laws::layers_end_alike;
use lvish_board::Outcome;
use lvish_calculus::laws::no_late_error;
use lvish_syntax::Script;
use lvish_task::ScriptCode;
use lvish_task::laws::{asks_no_freeze, same_runs};
use std::alloc::{AllocError, Global};

/// After how many steps every run of the script has ended, whatever the schedule and the number of
/// workers: then none errs and none is longer, and each report within a budget of so many steps is of
/// that end (the law [`bound_decides`](crate::laws::bound_decides)). `None` where one run doesn't show
/// it: the script has the line `freeze`, or the run that takes the first enabled label at each step
/// errs, or doesn't end within the budget.
///
/// # Errors
///
/// `AllocError` where a growth was refused.
pub fn always_ends(alloc: Global, script: &Script, budget: u64) -> Result<Option<u64>, AllocError>
    requires { budget ≤ MOST_STEPS }
    ensures { IfOk result (λ bound. ⟦<Script as RunMeaning>⟧.is_bound script.now budget bound) }
{
    same_runs();
    asks_no_freeze();
    no_late_error::<ScriptCode>();
    let code = ScriptCode::new(alloc, script)?;
    if code.freezes() {
        return Ok(None);
    }
    end_without_picks(alloc, script, budget)
}

/// The same, also of scripts whose `main` freezes each variable after all that write to it.
///
/// # Errors
///
/// `AllocError` where a growth was refused.
pub fn always_alike(alloc: Global, script: &Script, budget: u64) -> Result<Option<u64>, AllocError>
    requires { budget ≤ MOST_STEPS }
    ensures { IfOk result (λ bound. ⟦<Script as RunMeaning>⟧.is_alike_bound script.now budget bound) }
{
    same_runs();
    asks_no_freeze();
    no_late_error::<ScriptCode>();
    layers_end_alike();
    let code = ScriptCode::new(alloc, script)?;
    let in_time = freezes_in_time(alloc, &code)?;
    if !in_time {
        return Ok(None);
    }
    end_without_picks(alloc, script, budget)
}

/// Whether the code asks for no freeze, or `main` freezes each variable after all that write to it.
fn freezes_in_time(alloc: Global, code: &ScriptCode) -> Result<bool, AllocError>
    ensures { IfOk result (λ in_time. (in_time ≡ true) ↔ ((code_freezes code.now.flat ≡ false) ⊎ IsLayered code.now.flat)) }
{
    if !code.freezes() {
        return Ok(true);
    }
    is_layered(alloc, &code.flat)
}

/// After how many steps the run of the script that takes the first enabled label at each step ends,
/// where it does so without an error and within the budget.
fn end_without_picks(alloc: Global, script: &Script, budget: u64) -> Result<Option<u64>, AllocError>
    requires { budget ≤ MOST_STEPS }
    ensures { IfOk result (λ end. IsEndWithoutPicks script.now budget end) }
{
    let report = run_picks(alloc, script, &[], budget)?;
    match report.outcome {
        Outcome::Ended => Ok(Some(report.steps)),
        Outcome::Error { .. } => Ok(None),
        Outcome::Budget => Ok(None),
    }
}

ghost use Rattle.std.specs.Prelude.{◌≤◌, IfOk};

use crate::limits::MOST_STEPS;
use crate::runner::run_program_picks;
use lvish_compound::{Any, Event};
use lvish_report::Report;
use lvish_syntax::Script;
use lvish_task::ScriptCode;
use lvish_task::laws::{same_models, same_runs};
use std::alloc::{AllocError, Global};

/// What contracts say of a script's runs.
pub trait RunMeaning {
    ghost use Rattle.std.specs.Prelude.{ℕ, List, Option};
    ghost use Rattle.lvish_compound.specs.declared.any.Any.{Any};
    ghost use Rattle.lvish_compound.specs.declared.event.Event.{Event};
    ghost use Rattle.lvish_report.specs.declared.report.Report.{Report};

    /// An honest report of a run of the script's nested statements by this many workers, within the
    /// budget; of an end, that all ends that freeze variables in its order are the same.
    ghost is_run: { Self → ℕ → ℕ → Report Any Event → Type 0 };

    /// An honest report of the run of the script's nested statements that takes, at each step, the
    /// label that its pick names, or the first where the picks are used up; of an end, that all ends
    /// that freeze variables in its order are the same.
    ghost is_picked_run: { Self → List ℕ → ℕ → Report Any Event → Type 0 };

    /// After how many steps every run of the script has ended, without an error, as far as the run
    /// without picks shows it within the budget.
    ghost is_bound: { Self → ℕ → Option ℕ → Type 0 };

    /// The same, also of scripts whose `main` freezes each variable after all that write to it.
    ghost is_alike_bound: { Self → ℕ → Option ℕ → Type 0 };
}

impl RunMeaning for Script {
    ghost use Rattle.lvish_run.specs.Ends.{IsBound, IsAlikeBound};
    ghost use Rattle.lvish_run.specs.Scripts.{IsRunBy, IsPickedRun};

    ghost is_run = { λ script workers budget r. IsRunBy script workers budget r };

    ghost is_picked_run = { λ script picks budget r. IsPickedRun script picks budget r };

    ghost is_bound = { λ script budget bound. IsBound script budget bound };

    ghost is_alike_bound = { λ script budget bound. IsAlikeBound script budget bound };
}

/// Runs the script on one thread: at each step the enabled label whose number is the next pick
/// modulo their count, and the first enabled label when the picks are used up.
///
/// # Errors
///
/// `AllocError` where a growth was refused.
pub fn run_picks(
    alloc: Global,
    script: &Script,
    picks: &[u64],
    budget: u64,
) -> Result<Report<Any, Event>, AllocError>
    requires { budget ≤ MOST_STEPS }
    ensures { IfOk result (λ r. ⟦<Script as RunMeaning>⟧.is_picked_run script.now picks.now budget r) }
{
    same_runs();
    same_models();
    let code = ScriptCode::new(alloc, script)?;
    run_program_picks(alloc, &code, picks, budget)
}

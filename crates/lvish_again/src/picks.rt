ghost use Rattle.std.specs.Prelude.{◌≡◌, [], IfOk, IfSome, MatchOption};
ghost use Rattle.lvish_calculus.specs.Calculus.{Running, start};
ghost use Rattle.lvish_compound.specs.contracts.event.EventOrd.TheImpl.{ghosts as event_order};
ghost use Rattle.lvish_trace.specs.Traced.{labels_of};
ghost use Rattle.lvish_run.specs.Picked.{IsPicked};
ghost use Rattle.lvish_again.specs.Again.{IsCoreRun, EndsInZero};
ghost use Rattle.lvish_run.specs.Scripts.{script_machine};

use crate::walk::picks_of_entries;
use lvish_compound::{Any, Event};
use lvish_report::Report;
use lvish_syntax::Script;
use lvish_task::ScriptCode;
use lvish_task::laws::same_runs;
use std::alloc::{AllocError, Global};

/// The picks that make the report's run again, one for each step up to the last that doesn't take the
/// first label; `None` where its trace is no run of the script of at most 4,294,967,295 steps in which each
/// event is handed in the order of its introduction. A report of a run of the script, by workers or by
/// picks, has such a trace.
///
/// # Errors
///
/// `AllocError` where a growth was refused.
pub fn picks_of(
    alloc: Global,
    script: &Script,
    report: &Report<Any, Event>,
) -> Result<Option<Vec<u64>>, AllocError>
    ensures picks { IfOk result (λ o. MatchOption o (IsCoreRun (script_machine script.now) (labels_of report.now.trace) → ⊥)
        (λ picks. IsPicked event_order.cmp (script_machine script.now) picks.items [] (Running (start (script_machine script.now))) (labels_of report.now.trace))) }
    ensures no_zero { IfOk result (λ o. IfSome o (λ picks. EndsInZero picks.items → ⊥)) }
{
    same_runs();
    let code = ScriptCode::new(alloc, script)?;
    let entries = report.trace.entries(alloc)?;
    picks_of_entries(alloc, &code, entries.as_slice())
}

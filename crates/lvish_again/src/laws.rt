//! What the runs have in common that the same picks name, as contracts of functions with no code.

ghost use Rattle.std.specs.Prelude.{◌≤◌, ℕ, List, []};
ghost use Rattle.lvish_compound.specs.declared.any.Any.{Any};
ghost use Rattle.lvish_compound.specs.declared.event.Event.{Event};
ghost use Rattle.lvish_compound.specs.contracts.event.EventOrd.TheImpl.{ghosts as event_order};
ghost use Rattle.lvish_calculus.specs.Calculus.{Running, start};
ghost use Rattle.lvish_run.specs.declared.limits.TheConstants.{MOST_STEPS};
ghost use Rattle.lvish_syntax.specs.declared.script.Script.{Script};
ghost use Rattle.lvish_report.specs.declared.report.Report.{Report};
ghost use Rattle.lvish_trace.specs.Traced.{labels_of};
ghost use Rattle.lvish_run.specs.OneScript.{IsReportOf};
ghost use Rattle.lvish_run.specs.Picked.{IsPicked};
ghost use Rattle.lvish_run.specs.Scripts.{script_machine, IsPickedRun};
ghost use Rattle.lvish_again.specs.Again.{IsCoreRun, IsMadeAgain};

/// Where picks name the run of a report, by workers or by picks, each report of the run that these picks
/// make within the same budget is of just this run: it has the same steps in the same order, and tells
/// the same.
pub fn made_again()
    ensures { (s : Script) (picks : List ℕ) (b : ℕ) (r q : Report Any Event) → IsReportOf s b r
        → IsPicked event_order.cmp (script_machine s) picks [] (Running (start (script_machine s))) (labels_of r.trace)
        → IsPickedRun s picks b q → IsMadeAgain s r q }
{}

/// The trace of a report of a script, by workers or by picks, is a run of the script of at most
/// 1,000,000 steps, where its budget allows no more: so [`picks_of`](crate::picks_of) has its picks.
pub fn reports_are_core_runs()
    ensures { (s : Script) (b : ℕ) (r : Report Any Event) → b ≤ MOST_STEPS → IsReportOf s b r → IsCoreRun (script_machine s) (labels_of r.trace) }
{}

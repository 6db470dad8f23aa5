//! What reports of one script have in common, as contracts of functions with no code.

ghost use Rattle.std.specs.Prelude.{◌≡◌, ◌<◌, ◌≤◌, ℕ, None, Some, true};
ghost use Rattle.lvish_alike.specs.Alike.{ShowsAlike};
ghost use Rattle.lvish_compound.specs.declared.any.Any.{Any};
ghost use Rattle.lvish_compound.specs.declared.event.Event.{Event};
ghost use Rattle.lvish_names.specs.Names.{Name};
ghost use Rattle.lvish_calculus.specs.Calculus.{Running, start};
ghost use Rattle.lvish_calculus.specs.Laws.{FreezesAllBy, NeverErrs};
ghost use Rattle.lvish_syntax.specs.declared.script.Script.{Script};
ghost use Rattle.lvish_report.specs.declared.report.Report.{Report};
ghost use Rattle.lvish_trace.specs.Traced.{labels_of};
ghost use Rattle.lvish_trace.specs.declared.outcome.Outcome.TheVariants.{Budget, Ended};
ghost use Rattle.lvish_run.specs.Ends.{IsAnyBound};
ghost use Rattle.lvish_run.specs.Honest.{IsHonest};
ghost use Rattle.lvish_run.specs.Least.{IsLeast, IsClosedEnd, IsLeastModel, content_in, frozen_in, two_states};
ghost use Rattle.lvish_run.specs.OneScript.{IsReportOf, ReportsAgreeIf, IsEndAfter};
ghost use Rattle.lvish_run.specs.SameReports.{TellTheSameIf};
ghost use Rattle.lvish_run.specs.Scripts.{script_machine};

use lvish_calculus::laws::{lawful, least_model, order_decides, same_end};
use lvish_calculus::{Meaning, Program};

/// Two reports of ends of one script tell the same states, steps and blocked tasks, and have the same
/// text, where they list the same freezes in the same order: by any numbers of workers, by any picks,
/// within any budgets.
pub fn reports_agree()
    // Their runs freeze variables in the same order.
    ensures same_order { ReportsAgreeIf (λ s r q. r.freezes ≡ q.freezes) }
    // One task asks for all their freezes.
    ensures one_asks { ReportsAgreeIf (λ s r q. (t : Name Event) × FreezesAllBy (script_machine s) t (Running (start (script_machine s))) (labels_of r.trace) × FreezesAllBy (script_machine s) t (Running (start (script_machine s))) (labels_of q.trace)) }
    // No run of the script is in error.
    ensures no_error { ReportsAgreeIf (λ s r q. NeverErrs (script_machine s)) }
    // All ends of the script are alike, as `lvish_alike::ends_alike` says.
    ensures all_alike { ReportsAgreeIf (λ s r q. ShowsAlike s true) }
{}

/// Two honest reports of ends of one program tell the same, where they list the same freezes in the
/// same order.
pub fn honest_reports_agree<P: Program>()
    // Their runs freeze variables in the same order.
    ensures same_order { (p : P) → TellTheSameIf (⟦<P as Meaning>⟧.machine p) (P.functions p).variables (λ r q. r.freezes ≡ q.freezes) }
    // One task asks for all their freezes.
    ensures one_asks { (p : P) → TellTheSameIf (⟦<P as Meaning>⟧.machine p) (P.functions p).variables (λ r q. (t : Name P.Lat.Event)
        × FreezesAllBy (⟦<P as Meaning>⟧.machine p) t (Running (start (⟦<P as Meaning>⟧.machine p))) (labels_of r.trace)
        × FreezesAllBy (⟦<P as Meaning>⟧.machine p) t (Running (start (⟦<P as Meaning>⟧.machine p))) (labels_of q.trace)) }
    // No run of the program is in error.
    ensures no_error { (p : P) → TellTheSameIf (⟦<P as Meaning>⟧.machine p) (P.functions p).variables (λ r q. NeverErrs (⟦<P as Meaning>⟧.machine p)) }
{
    order_decides::<P>();
    same_end::<P>();
}

/// The contents of an honest report of a program, among all models of the program.
pub fn honest_contents<P: Program>()
    // They are at or below those of each model with what the report's run froze.
    ensures least { (p : P) (w c : ℕ) (r : Report P.Lat P.Lat.Event) → IsHonest (⟦<P as Meaning>⟧.machine p) (P.functions p).variables w c r → IsLeast (⟦<P as Meaning>⟧.machine p) r }
    // At an end that no task leaves at a freeze of a frozen variable they are closed.
    ensures closed { (p : P) (w c : ℕ) (r : Report P.Lat P.Lat.Event) → IsHonest (⟦<P as Meaning>⟧.machine p) (P.functions p).variables w c r → IsClosedEnd (⟦<P as Meaning>⟧.machine p) r }
{
    lawful::<P>();
    least_model::<P>();
}

/// The contents of a report of an end without a blocked task are the least model of the script's
/// statements with what is frozen: they have all that tasks put which play against them, and are at
/// or below all contents that have it. Nothing in this speaks of the order of steps.
pub fn ends_are_least_models()
    ensures { (s : Script) (c : ℕ) (r : Report Any Event) → IsReportOf s c r → r.outcome ≡ Ended → r.blocked ≡ 0
        → IsLeastModel (script_machine s) (content_in (script_machine s).bottom r.states) (frozen_in r.states) }
{}

/// How a report's states are read as contents, by the states of two variables: the first is frozen
/// with the content 3, the second has the content 5.
pub fn states_are_contents()
    // Each variable has its content, and bottom, here 0, where the list has none.
    ensures contents { (content_in 0 two_states 0 ≡ 3) × (content_in 0 two_states 1 ≡ 5) × (content_in 0 two_states 2 ≡ 0) }
    // Of the frozen contents there is that of the first variable alone.
    ensures frozen { (frozen_in two_states 0 ≡ Some 3) × (frozen_in two_states 1 ≡ None) × (frozen_in two_states 2 ≡ None) }
{}

/// Where [`always_ends`](crate::always_ends) or [`always_alike`](crate::always_alike) says `Some(n)`,
/// each report of a run of the script, by any number of workers or by any picks, is of an end after n
/// steps, where its budget allows so many.
pub fn bound_decides()
    // With a budget of n or more it is of an end after n steps, with the states and the blocked tasks
    // of the run without picks.
    ensures enough { (s : Script) (b n c : ℕ) (r : Report Any Event) → IsAnyBound s b (Some n) → IsReportOf s c r → n ≤ c → IsEndAfter s n r }
    // With less it is of a run that was stopped there.
    ensures too_few { (s : Script) (b n c : ℕ) (r : Report Any Event) → IsAnyBound s b (Some n) → IsReportOf s c r → c < n → (r.outcome ≡ Budget) × (r.steps ≡ c) }
{}

//! What [`Tried`](crate::Tried) says of runs, as contracts of functions with no code.

ghost use Rattle.std.specs.Prelude.{◌≡◌, ◌≤◌, ℕ, length, slice_get, Some};
ghost use Rattle.lvish_compound.specs.declared.any.Any.{Any};
ghost use Rattle.lvish_compound.specs.declared.event.Event.{Event};
ghost use Rattle.lvish_syntax.specs.declared.script.Script.{Script};
ghost use Rattle.lvish_report.specs.declared.report.Report.{Report};
ghost use Rattle.lvish_try.specs.declared.tried.Tried.{Tried};
ghost use Rattle.lvish_try.specs.Tried.{IsTried, shown};

/// Where there is at most one outcome, any two of the runs told the same.
pub fn agreeing_runs_tell_the_same()
    ensures { (s : Script) (times seed b : ℕ) (t : Tried) (h : IsTried s times seed b t) → length t.found ≤ 1
        → (j k : ℕ) (r q : Report Any Event) → slice_get h.found.runs j ≡ Some r → slice_get h.found.runs k ≡ Some q → shown s r ≡ shown s q }
{}

//! What an analysis computes, as contracts of functions with no code.

ghost use Rattle.std.specs.Prelude.{ℕ};
ghost use Rattle.lvish_lattice.specs.Top.{IsNeverTop};
ghost use Rattle.lvish_calculus.specs.Laws.{NeverErrs};
ghost use Rattle.lvish_calculus.specs.Agreement.{AgreeOrErr, AllLeadToTheEnd};
ghost use Rattle.lvish_rules.specs.declared.ruled.Ruled.{Ruled};
ghost use Rattle.lvish_rules.specs.declared.reach.Graph.{Graph};
ghost use Rattle.lvish_rules.specs.Reach.{FindsReachable, FindsNoOther};
ghost use Rattle.lvish_rules.specs.Analysis.{EndsAreExact, RunsAreSound, EndsObeyRules, RunsAreBelowModels, ErrsAtTop, IsRanked};

use crate::reach::Graph;
use crate::ruled::Ruled;
use crate::rules::Rules;
use lvish_calculus::Meaning;
use lvish_calculus::laws::lawful;
use lvish_lattice::laws::sets_never_join_to_top;

/// An analysis computes what follows from its rules.
pub fn computes_what_follows<R: Rules>()
    // At an end the events of each relation are those that follow from the rules.
    ensures exact { (p : Ruled R) → EndsAreExact (⟦<Ruled<R> as Meaning>⟧.machine p) (R.rule_set p.rules) }
    // A run has no other, ended or not.
    ensures sound { (p : Ruled R) → RunsAreSound (⟦<Ruled<R> as Meaning>⟧.machine p) (R.rule_set p.rules) }
    // At an end the contents are closed under the rules.
    ensures closed { (p : Ruled R) → EndsObeyRules (⟦<Ruled<R> as Meaning>⟧.machine p) (R.rule_set p.rules) }
    // The contents of a run are at or below all that are, ended or not.
    ensures least { (p : Ruled R) → RunsAreBelowModels (⟦<Ruled<R> as Meaning>⟧.machine p) (R.rule_set p.rules) }
{
    lawful::<Ruled<R>>();
}

/// An analysis is deterministic.
pub fn deterministic<R: Rules>()
    // Two runs that can't go on have one end and the same labels in some order, or both are in error.
    ensures agree { (p : Ruled R) → AgreeOrErr (⟦<Ruled<R> as Meaning>⟧.machine p) }
    // Where one run ends without an error, each run leads on to its end.
    ensures leads { (p : Ruled R) → AllLeadToTheEnd (⟦<Ruled<R> as Meaning>⟧.machine p) }
    // A run is in error only where what follows of a relation joins to top, or past a depth of 64.
    ensures erring { (p : Ruled R) → ErrsAtTop (⟦<Ruled<R> as Meaning>⟧.machine p) (R.rule_set p.rules) }
    // Where joins are never top, and watches have ranks, no run is in error.
    ensures unerring { (p : Ruled R) (rank : ℕ → ℕ) → IsNeverTop R.Lat.joined → IsRanked (R.rule_set p.rules) rank → NeverErrs (⟦<Ruled<R> as Meaning>⟧.machine p) }
{
    lawful::<Ruled<R>>();
}

/// The analysis of reachability finds what can be reached.
pub fn finds_reachable()
    // At an end its set is that of the nodes that can be reached.
    ensures exact { (p : Ruled Graph) → FindsReachable (⟦<Ruled<Graph> as Meaning>⟧.machine p) p.rules }
    // A run has no other, ended or not.
    ensures sound { (p : Ruled Graph) → FindsNoOther (⟦<Ruled<Graph> as Meaning>⟧.machine p) p.rules }
    // Any two runs that can't go on have one end.
    ensures agree { (p : Ruled Graph) → AgreeOrErr (⟦<Ruled<Graph> as Meaning>⟧.machine p) }
    // No run is in error.
    ensures unerring { (p : Ruled Graph) → NeverErrs (⟦<Ruled<Graph> as Meaning>⟧.machine p) }
{
    computes_what_follows::<Graph>();
    deterministic::<Graph>();
    sets_never_join_to_top::<i64>();
}

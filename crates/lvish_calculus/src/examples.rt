//! Worked examples: small programs, whose runs the definitions compute.

ghost use Rattle.std.specs.Prelude.{◌≡◌, ℕ};
ghost use Rattle.lvish_names.specs.Names.{main};
ghost use Rattle.lvish_calculus.specs.Machine.{IsLawful};
ghost use Rattle.lvish_calculus.specs.Calculus.{Running, State, start};
ghost use Rattle.lvish_calculus.specs.Laws.{IsCrossed, FreezesAllBy, AsksNoFreeze, NeverErrs};
ghost use Rattle.lvish_calculus.specs.FreezeOrder.{freeze_order};
ghost use Rattle.lvish_calculus.specs.Handing.{handed_to, HandsOldestFirst, HandsWell, Introduces};
ghost use Rattle.lvish_calculus.specs.Examples.{EndsAs, LeadsTo, AreDisjointAfter, RunHandsWell, IsClosedAfter, EndsClosed, over_sets};
ghost use Rattle.lvish_calculus.specs.Examples.{crossing, u, t, until_both, u_first, t_first, both_freeze, v_then_w, w_then_v, u_first_end, t_first_end, both_freeze_error};
ghost use Rattle.lvish_calculus.specs.Examples.{Set, late, until_frozen, one_there, freeze_first, put_first, freeze_first_error, put_first_end};
ghost use Rattle.lvish_calculus.specs.Examples.{HandingAt, handing, copier, until_added, until_three_put, one_twice, in_put_order, one_first, handing_end, three_then_one, one_then_three};
ghost use Rattle.lvish_calculus.specs.ReachExample.{walk, EndsWithReached, HasOnlyReached};

/// Two runs of one program that cross, and end differently. A third run of it is in error.
///
/// `main` forks `u` and `t`. `u` freezes v, and puts 0 into w where v is empty; `t` freezes w, and
/// puts 0 into v where w is empty.
pub fn crossing_runs()
    // v = {}, w = {0}.
    ensures u_first { EndsAs crossing u_first u_first_end }
    // v = {0}, w = {}.
    ensures t_first { EndsAs crossing t_first t_first_end }
    // The one freezes v first, and the other w.
    ensures u_first_order { freeze_order (over_sets crossing) u_first ≡ v_then_w }
    ensures t_first_order { freeze_order (over_sets crossing) t_first ≡ w_then_v }
    ensures crossed { IsCrossed (over_sets crossing) u_first t_first }
    // No task asks for all freezes.
    ensures two_ask { FreezesAllBy (over_sets crossing) u (Running (start (over_sets crossing))) u_first → ⊥ }
    // The program is one of those of which the laws speak, so they need their premises.
    ensures lawful { IsLawful (over_sets crossing) }
    // Where both freeze before they put, v is frozen first as well.
    ensures uncrossed { IsCrossed (over_sets crossing) u_first both_freeze → ⊥ }
    // Frozen, by u's put into w.
    ensures error { LeadsTo crossing both_freeze both_freeze_error }
    // The two freezes are of different variables, so they commute.
    ensures disjoint { AreDisjointAfter crossing until_both u t }
{}

/// A put that comes after the freeze is an error, and one that comes before it isn't.
///
/// `main` forks a task that puts 1 into s, and freezes s.
pub fn late_put()
    // Before that put, {1} is a model with s = {} frozen: only errors of freezing are left.
    ensures model { IsClosedAfter late until_frozen one_there }
    // Frozen, by the writer's put into s.
    ensures freeze_first { LeadsTo late freeze_first freeze_first_error }
    // s = {1}.
    ensures put_first { EndsAs late put_first put_first_end }
    ensures lawful { IsLawful (over_sets late) }
{}

/// A handler is handed what one task puts in the order of its puts. That is more than a run in
/// itself promises: in another run of the same program it is handed the numbers ascending.
///
/// `main` adds a handler, puts 3 and then 1 into s, and freezes s after the handler's tasks, which
/// copy each number into out.
pub fn handing_order()
    // s = {1, 3}, out = {1, 3}.
    ensures ends { EndsAs handing in_put_order handing_end }
    // These contents have all that tasks put which play against them.
    ensures closed { EndsClosed handing in_put_order }
    ensures lawful { IsLawful (over_sets handing) }
    // main asks for all freezes.
    ensures main_freezes { FreezesAllBy (over_sets handing) main (Running (start (over_sets handing))) in_put_order }
    // Its second step introduces 3, and its third 1.
    ensures introduces_three { Introduces (over_sets handing) until_added main 0 3 }
    ensures introduces_one { Introduces (over_sets handing) until_three_put main 0 1 }
    // 3, then 1.
    ensures handed { handed_to (over_sets handing) copier in_put_order ≡ three_then_one }
    // Each time the event that was introduced first.
    ensures is_core_run { HandsOldestFirst (over_sets handing) in_put_order }
    ensures hands_well { RunHandsWell handing in_put_order }
    // No labels that hand an event twice hand well.
    ensures twice_is_not_well { (d : State Set ℕ HandingAt) → HandsWell (over_sets handing) one_twice d → ⊥ }
    // The same end.
    ensures other_ends { EndsAs handing one_first handing_end }
    // 1, then 3.
    ensures other_handed { handed_to (over_sets handing) copier one_first ≡ one_then_three }
    // The other run hands 1 before 3, which was introduced before it.
    ensures other_is_no_core_run { HandsOldestFirst (over_sets handing) one_first → ⊥ }
{}

/// A walk over a graph ends with the nodes that are reached, by the laws of the least model: of any
/// graph, any run.
///
/// `main` adds a handler on a set and puts the roots into it; the handler's tasks put the
/// successors of their numbers.
pub fn walk_reaches()
    // Exactly what is reached from the roots, where the run has ended.
    ensures ends { (roots : Set) (next : ℕ → Set) → EndsWithReached roots next }
    // Nothing else, wherever it was stopped.
    ensures stopped { (roots : Set) (next : ℕ → Set) → HasOnlyReached roots next }
    // No run is in error.
    ensures no_error { (roots : Set) (next : ℕ → Set) → NeverErrs (over_sets (walk roots next)) }
    ensures lawful { (roots : Set) (next : ℕ → Set) → IsLawful (over_sets (walk roots next)) }
    // No task freezes, so no_late_error and deterministic_without_freezing speak of it.
    ensures asks_no_freeze { (roots : Set) (next : ℕ → Set) → AsksNoFreeze (over_sets (walk roots next)) }
{}

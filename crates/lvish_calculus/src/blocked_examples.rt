//! Worked examples of blocked tasks: small programs, and where in their runs a task is blocked.

ghost use Rattle.lvish_names.specs.Names.{main};
ghost use Rattle.lvish_calculus.specs.Machine.{IsLawful};
ghost use Rattle.lvish_calculus.specs.Laws.{AsksNoFreeze, NeverErrs};
ghost use Rattle.lvish_calculus.specs.Examples.{EndsAs, over_sets, handing};
ghost use Rattle.lvish_calculus.specs.BlockedExamples.{IsBlockedAfter, IsEnabledAfter, EndsHolding, over_counters, level_functions, reader};
ghost use Rattle.lvish_calculus.specs.BlockedExamples.{until_fork, until_one, until_three, level_run, three_and_two};
ghost use Rattle.lvish_calculus.specs.BlockedExamples.{one_unhanded, one_running, both_copied};
ghost use Rattle.lvish_calculus.specs.BlockedExamples.{nesting, the_outer, both_pools, outer_running, inner_running, inner_ended, frozen_before, frozen_after, nesting_end};

/// A get waits until the variable has reached its level, and its answer is that level.
///
/// `main` forks a reader, and raises a counter to 1 and then to 3. The reader waits for 2, and puts
/// the answer into seen.
pub fn get_waits()
    // The counter is 0.
    ensures at_none { IsBlockedAfter (over_counters level_functions) until_fork reader }
    // It is 1.
    ensures at_one { IsBlockedAfter (over_counters level_functions) until_one reader }
    // It is 3.
    ensures at_three { IsEnabledAfter (over_counters level_functions) until_three reader }
    // The counter is 3, and seen is 2.
    ensures ends { EndsHolding (over_counters level_functions) level_run three_and_two }
    ensures lawful { IsLawful (over_counters level_functions) }
    // No task freezes, so by that end no run is in error.
    ensures asks_no_freeze { AsksNoFreeze (over_counters level_functions) }
    ensures no_error { NeverErrs (over_counters level_functions) }
{}

/// A freeze waits until each event was handed to each handler of its variable, and until the tasks
/// of the pools that it names have ended.
///
/// The program is that of `handing_order`: `main` freezes s = {1, 3} after the tasks of a handler.
pub fn freeze_waits()
    // 1 is to be handed, and no other task than `main` is left.
    ensures unhanded { IsBlockedAfter (over_sets handing) one_unhanded main }
    // Both were handed, and the task of 1 is left.
    ensures running { IsBlockedAfter (over_sets handing) one_running main }
    // Both tasks have ended.
    ensures quiet { IsEnabledAfter (over_sets handing) both_copied main }
{}

/// A freeze waits for the tasks of the pools that it names, and not for those of a pool within.
///
/// `main` adds a handler to the outer pool, puts 1 into s, and freezes s. The handler's task adds a
/// handler to the inner pool, which is also of s.
pub fn nested_pools()
    // The outer task is left, and the inner one.
    ensures outer_left { IsBlockedAfter (over_sets (nesting the_outer)) outer_running main }
    // The inner task alone is left. A freeze that names the outer pool doesn't wait for it.
    ensures outer_named { IsEnabledAfter (over_sets (nesting the_outer)) inner_running main }
    // A freeze that names both does.
    ensures both_named { IsBlockedAfter (over_sets (nesting both_pools)) inner_running main }
    ensures both_ended { IsEnabledAfter (over_sets (nesting both_pools)) inner_ended main }
    // s = {1}, out = {1}, whichever comes first.
    ensures frozen_before { EndsAs (nesting the_outer) frozen_before nesting_end }
    ensures frozen_after { EndsAs (nesting both_pools) frozen_after nesting_end }
    ensures outer_lawful { IsLawful (over_sets (nesting the_outer)) }
    ensures both_lawful { IsLawful (over_sets (nesting both_pools)) }
{}

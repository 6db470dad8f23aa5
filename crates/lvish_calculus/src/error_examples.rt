//! Worked examples of errors: small programs, and runs that meet an error.

ghost use Rattle.std.specs.Prelude.{Some, None};
ghost use Rattle.lvish_calculus.specs.Machine.{IsLawful, Conflict, Late, Deep};
ghost use Rattle.lvish_names.specs.Names.{main};
ghost use Rattle.lvish_calculus.specs.Examples.{EndsAs, over_sets};
ghost use Rattle.lvish_calculus.specs.ErrorExamples.{MeetsError, IsDoomedAfter, IsUndoomedAfter, over_cells, two_numbers, one_writer, until_two, two_first, one_first};
ghost use Rattle.lvish_calculus.specs.BlockedExamples.{until_fork};
ghost use Rattle.lvish_calculus.specs.ErrorExamples.{late_handler, adder, freeze_first, add_first, add_first_end, chain, nested, forks_from};

/// Two puts whose join is top are an error, by whichever task comes second.
///
/// `main` forks a task that puts 1 into a cell, and puts 2 into it.
pub fn conflict()
    ensures two_first { MeetsError (over_cells two_numbers) two_first Conflict (Some 0) one_writer }
    ensures one_first { MeetsError (over_cells two_numbers) one_first Conflict (Some 0) main }
    // Before the first put, neither task is at a step that is an error.
    ensures undoomed { IsUndoomedAfter (over_cells two_numbers) until_fork }
    // After main's, the other task is.
    ensures doomed { IsDoomedAfter (over_cells two_numbers) until_two }
    ensures lawful { IsLawful (over_cells two_numbers) }
{}

/// A handler that comes after the freeze is an error, and one that comes before it isn't.
///
/// `main` forks a task that adds a handler to s, and freezes s.
pub fn late_add()
    ensures freeze_first { MeetsError (over_sets late_handler) freeze_first Late (Some 0) adder }
    // s = {}.
    ensures add_first { EndsAs late_handler add_first add_first_end }
    ensures lawful { IsLawful (over_sets late_handler) }
{}

/// A task whose name has 64 parts can't fork, and 64 tasks before it can.
///
/// Each task forks one that does the same.
pub fn deep_fork()
    ensures deep { MeetsError (over_sets chain) (forks_from 0 65) Deep None (nested 64) }
    // Before the last step, its task is at a step that is an error.
    ensures doomed { IsDoomedAfter (over_sets chain) (forks_from 0 64) }
    ensures lawful { IsLawful (over_sets chain) }
{}

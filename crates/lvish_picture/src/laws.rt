//! The laws of pictures, as contracts of functions with no code.

ghost use Rattle.lvish_picture.specs.Steps.{IsPutStep, IsFreezeStep, IsAddStep, IsPlainStep};
ghost use Rattle.lvish_picture.specs.Laws.{IsOrdered, ActKept, HandKept, ErrorsAreSteps};
ghost use Rattle.lvish_picture.specs.Counts.{BegunIsPictured, ActCounted, PlainCounted, HandCounted, FreezesByCounts, EndedByCounts, FewRun, SomeRun, StartIsFollowed, EndIsFollowed, RestIsFollowed};
ghost use Rattle.lvish_picture.specs.Laws.{HandsBelowTheEnd, HandsTheNext, HandsTheHeld, DrainedAtTheEnd, NewHandlerIsNew, NewTaskIsNew, OneStepMore, PostsAreHeld, TasksAreHeld, EndsByCursors};

use lvish_calculus::laws::lawful;
use lvish_calculus::{Meaning, Program};

/// The order of a lattice's events tells them apart, and the events of each state ascend by it.
pub fn ordered<P: Program>()
    ensures { (p : P) → IsOrdered (⟦<P as Meaning>⟧.machine p) }
{}

/// A table at the start is pictured by the empty run.
pub fn begun_is_pictured<P: Program>()
    ensures { (p : P) → BegunIsPictured (⟦<P as Meaning>⟧.machine p) }
{
    lawful::<P>();
}

/// A step leads to a table that one label more reaches.
pub fn one_step_more<P: Program>()
    ensures { (p : P) → OneStepMore (⟦<P as Meaning>⟧.machine p) }
{
    lawful::<P>();
}

/// A put keeps the picture: the log grows by the events that are fresh, in ascending order.
pub fn put_kept<P: Program>()
    ensures { (p : P) → ActKept IsPutStep (⟦<P as Meaning>⟧.machine p) }
{
    lawful::<P>();
    ordered::<P>();
}

/// A freeze keeps the picture: the mark alone is changed.
pub fn freeze_kept<P: Program>()
    ensures { (p : P) → ActKept IsFreezeStep (⟦<P as Meaning>⟧.machine p) }
{
    lawful::<P>();
}

/// A handler that is added keeps the picture: it was handed nothing yet.
pub fn add_kept<P: Program>()
    ensures { (p : P) → ActKept IsAddStep (⟦<P as Meaning>⟧.machine p) }
{
    lawful::<P>();
}

/// A get, a fork, a pause and an end keep the picture: logs, marks and cursors stay.
pub fn plain_kept<P: Program>()
    ensures { (p : P) → ActKept IsPlainStep (⟦<P as Meaning>⟧.machine p) }
{
    lawful::<P>();
}

/// A handed entry keeps the picture: the cursor goes on by one.
pub fn hand_kept<P: Program>()
    ensures { (p : P) → HandKept (⟦<P as Meaning>⟧.machine p) }
{
    lawful::<P>();
}

/// What a variable refuses, a name that is too long and a fault are the errors of the calculus.
pub fn errors_are_steps<P: Program>()
    ensures { (p : P) → ErrorsAreSteps (⟦<P as Meaning>⟧.machine p) }
{
    lawful::<P>();
}

/// A handler's cursor says what it can be handed.
pub fn handed_next<P: Program>()
    // Something, where the cursor is below the log's length.
    ensures below_the_end { (p : P) → HandsBelowTheEnd (⟦<P as Meaning>⟧.machine p) }
    // In a core run the log's next entry, and no other event.
    ensures next { (p : P) → HandsTheNext (⟦<P as Meaning>⟧.machine p) }
    // Only the table's handlers are handed anything.
    ensures held { (p : P) → HandsTheHeld (⟦<P as Meaning>⟧.machine p) }
{
    lawful::<P>();
    ordered::<P>();
}

/// The cursors of a variable's handlers say whether they were handed every event.
pub fn drained_at_the_end<P: Program>()
    ensures { (p : P) → DrainedAtTheEnd (⟦<P as Meaning>⟧.machine p) }
{
    lawful::<P>();
}

/// The tasks' requests and the cursors say whether a run has ended.
pub fn ends_by_cursors<P: Program>()
    ensures { (p : P) → EndsByCursors (⟦<P as Meaning>⟧.machine p) }
{
    lawful::<P>();
}

/// Each handler of the calculus is held in the table, beside its variable.
pub fn handlers_are_held<P: Program>()
    // With its pool and its procedure.
    ensures posts { (p : P) → PostsAreHeld (⟦<P as Meaning>⟧.machine p) }
    // Also where a task's name leads to it.
    ensures tasks { (p : P) → TasksAreHeld (⟦<P as Meaning>⟧.machine p) }
{
    lawful::<P>();
}

/// The names that a step makes aren't taken.
pub fn names_are_new<P: Program>()
    ensures handlers { (p : P) → NewHandlerIsNew (⟦<P as Meaning>⟧.machine p) }
    ensures tasks { (p : P) → NewTaskIsNew (⟦<P as Meaning>⟧.machine p) }
{
    lawful::<P>();
}

/// Each step keeps the counts of running tasks right, where they follow the tasks that it makes
/// and ends.
pub fn counts_kept<P: Program>()
    ensures put { (p : P) → ActCounted IsPutStep (⟦<P as Meaning>⟧.machine p) }
    ensures freeze { (p : P) → ActCounted IsFreezeStep (⟦<P as Meaning>⟧.machine p) }
    ensures add { (p : P) → ActCounted IsAddStep (⟦<P as Meaning>⟧.machine p) }
    ensures plain { (p : P) → PlainCounted (⟦<P as Meaning>⟧.machine p) }
    ensures hand { (p : P) → HandCounted (⟦<P as Meaning>⟧.machine p) }
{
    lawful::<P>();
    ordered::<P>();
}

/// The counts follow a step, where the variable of the task's pool counts it.
pub fn counts_follow<P: Program>()
    ensures start { (p : P) → StartIsFollowed (⟦<P as Meaning>⟧.machine p) }
    ensures end { (p : P) → EndIsFollowed (⟦<P as Meaning>⟧.machine p) }
    // The task is in no pool, or it goes on.
    ensures rest { (p : P) → RestIsFollowed (⟦<P as Meaning>⟧.machine p) }
{
    lawful::<P>();
}

/// How many tasks run in a pool.
pub fn running_counts<P: Program>()
    // No more than steps were made.
    ensures few { (p : P) → FewRun (⟦<P as Meaning>⟧.machine p) }
    // At least one, where a live task is in the pool.
    ensures some { (p : P) → SomeRun (⟦<P as Meaning>⟧.machine p) }
{
    lawful::<P>();
}

/// Cursors and counts say whether a freeze can be made, with no look at any task.
pub fn freezes_by_counts<P: Program>()
    // The pools' tasks have ended, where the counts are 0.
    ensures ended { (p : P) → EndedByCounts (⟦<P as Meaning>⟧.machine p) }
    // So the calculus's own condition holds, where the cursors are at the log's end as well.
    ensures quiet { (p : P) → FreezesByCounts (⟦<P as Meaning>⟧.machine p) }
{
    lawful::<P>();
}

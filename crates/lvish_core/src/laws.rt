//! The laws of cores and their runs, as contracts of functions with no code.

ghost use Rattle.lvish_core.specs.After.{OthersStay, StartsAsSaid};
ghost use Rattle.lvish_core.specs.CoreLaws.{TakesCoreRuns, TakesSomething, HandsToEach, HandsOneEvent, HandsWhatComes, EntriesNameTheirPuts, PutsHaveTheirEntries};
ghost use Rattle.lvish_core.specs.Spots.{WakesAtItsSpot};
ghost use Rattle.lvish_core.specs.Blocked.{IsBlockedUntilTouched, EndsByCounts};

use lvish_calculus::laws::{handing_kept, lawful, wakes_by_variable};
use lvish_calculus::{Meaning, Program};
use lvish_picture::laws::{ends_by_cursors, handed_next, handlers_are_held, ordered};

/// A core can take just the labels that are enabled and with which its run hands each handler the
/// events in the order of their introduction.
pub fn takes_core_runs<P: Program>()
    ensures { (p : P) → TakesCoreRuns P (⟦<P as Meaning>⟧.machine p) }
{
    lawful::<P>();
    ordered::<P>();
    handed_next::<P>();
}

/// Where a label is enabled, a core can take one.
pub fn takes_something<P: Program>()
    ensures { (p : P) → TakesSomething P (⟦<P as Meaning>⟧.machine p) }
{
    lawful::<P>();
    ordered::<P>();
    handed_next::<P>();
}

/// What handlers are handed in the run that led to a core, after any list of calls: each event at
/// most once, one task's in the order of its puts, none after the freeze, and at the freeze and at an
/// end without an error exactly those below the state. After an error that holds of the steps before
/// the one that met it, which the error's task made.
pub fn hands_to_each<P: Program>()
    ensures { (p : P) → HandsToEach P (⟦<P as Meaning>⟧.machine p) }
{
    handing_kept::<P>();
}

/// A handler is handed the event that comes next for it, which `Core::next` answers, and no other.
pub fn hands_one_event<P: Program>()
    // Only the one that comes next.
    ensures one { (p : P) → HandsOneEvent P (⟦<P as Meaning>⟧.machine p) }
    // Without an error, what comes next can be handed.
    ensures open { (p : P) → HandsWhatComes P (⟦<P as Meaning>⟧.machine p) }
{
    lawful::<P>();
    handlers_are_held::<P>();
    handed_next::<P>();
}

/// Which steps can wake a blocked task, and what shows an end.
pub fn blocked_tasks<P: Program>()
    // Only a step that concerned its variable can wake a blocked task.
    ensures until_touched { (p : P) → IsBlockedUntilTouched P (⟦<P as Meaning>⟧.machine p) }
    // If every running task is blocked, the cursors show whether this is an end.
    ensures ends { (p : P) → EndsByCounts P (⟦<P as Meaning>⟧.machine p) }
{
    lawful::<P>();
    wakes_by_variable::<P>();
    ends_by_cursors::<P>();
}

/// Where tasks stand after a step.
pub fn tasks_after<P: Program>()
    // Each keeps its local state, but the one that acts.
    ensures others { (p : P) → OthersStay P (⟦<P as Meaning>⟧.machine p) }
    // One that starts is in the local state that the step says.
    ensures made { (p : P) → StartsAsSaid P (⟦<P as Meaning>⟧.machine p) }
{
    blocked_tasks::<P>();
    lawful::<P>();
}

/// A step wakes a get that waits at a spot only where it brings an event of this spot to the log of
/// the get's variable.
pub fn wakes_at_its_spot<P: Program>()
    ensures { (p : P) → WakesAtItsSpot P (⟦<P as Meaning>⟧.machine p) P.Lat.spot_of P.Lat.watched }
{
    lawful::<P>();
}

/// Which put brought an entry of a log, in the run that led to a core, after any list of calls.
pub fn entries_carry_their_puts<P: Program>()
    // Each entry names its put: at a step of the run its task makes the put of its number, into
    // this variable, and this step introduces its event.
    ensures named { (p : P) → EntriesNameTheirPuts P (⟦<P as Meaning>⟧.machine p) }
    // Each event that a step introduces has one entry, with the task that makes the step and the
    // number of its put.
    ensures each { (p : P) → PutsHaveTheirEntries P (⟦<P as Meaning>⟧.machine p) }
{
    lawful::<P>();
}

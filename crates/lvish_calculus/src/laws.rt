//! The laws of all runs, as contracts of functions with no code.

ghost use Rattle.std.specs.Prelude.{◌≡◌};
ghost use Rattle.lvish_calculus.specs.Machine.{IsLawful};
ghost use Rattle.lvish_calculus.specs.Calculus.{Running, start};
ghost use Rattle.lvish_names.specs.Names.{Name};
ghost use Rattle.lvish_calculus.specs.Handing.{HandingKept};
ghost use Rattle.lvish_calculus.specs.Blocked.{IsWokenByItsVariable, AllAreBlocked};
ghost use Rattle.lvish_calculus.specs.FreezeOrder.{AreComparable, freeze_order, CrossedByOrder, CrossOrComparable, CrossOrSameOrder};
ghost use Rattle.lvish_calculus.specs.LeastModel.{EndsAreClosed, RunsAreLeast, FrozenDecides, PlaysAreTasks, EventsAreSupported, OnlyFrozenOrLate, ClosedNeverErrs};
ghost use Rattle.lvish_calculus.specs.Agreement.{NeverAsksFreeze, AgreeOrErr, AllLeadToTheEnd, AgreeOrSomeErrs, AllLeadOrSomeErrs, CommuteOrErr, SameLabelsIf};
ghost use Rattle.lvish_calculus.specs.Growth.{RunsKeep, RunsGrow};
ghost use Rattle.lvish_calculus.specs.Independence.{DisjointCommute, StepsStay};
ghost use Rattle.lvish_calculus.specs.Laws.{MovesCommute, DoomedStays, SameEndIf, IsCrossed, FreezesAllBy, NeverErrs, NoLateError};

use crate::meaning::Meaning;
use crate::program::Program;

/// A program's machine has the laws of its lattice, its reads and its functions.
pub fn lawful<P: Program>()
    ensures { (p : P) → IsLawful (⟦<P as Meaning>⟧.machine p) }
{}

/// Of any two different steps that are enabled in a configuration of a run, and are no errors there,
/// both orders agree, or in one order the second step is an error.
///
/// The law needs a run, whose steps never make a name that exists. In a configuration that no run
/// reaches, two steps could make the same name.
///
/// Kuper, Turon, Krishnaswami and Newton (POPL 2014): local quasi-confluence.
pub fn moves_commute<P: Program>()
    // Both orders lead to one configuration, or after one of the steps the configuration is doomed.
    // Where it is doomed before them, by a third task, this says nothing.
    ensures or_doomed { (p : P) → MovesCommute (⟦<P as Meaning>⟧.machine p) }
    // Both orders lead to one configuration, or after one of the steps the other is an error.
    ensures or_errs { (p : P) → CommuteOrErr (⟦<P as Meaning>⟧.machine p) }
{
    lawful::<P>();
}

/// Steps about different variables are independent of each other, and a step is independent of
/// contents that grow, but for conflicts of its own put.
///
/// Kuper, Turon, Krishnaswami and Newton (POPL 2014): independence.
pub fn independence<P: Program>()
    // Two different steps about different variables, enabled in a configuration of a run and no
    // errors there, commute: both orders lead to one configuration.
    ensures disjoint { (p : P) → DisjointCommute (⟦<P as Meaning>⟧.machine p) }
    // In any configuration with greater contents a step stays enabled and has the same effect, or
    // it is a put that meets a conflict there. Of a freeze it is said where the content of its
    // variable is the same.
    ensures greater { (p : P) → StepsStay (⟦<P as Meaning>⟧.machine p) }
{
    lawful::<P>();
}

/// Induction over runs: what holds at the start, and what each step of a run keeps, holds wherever
/// a run leads.
pub fn runs_keep<P: Program>()
    ensures { (p : P) → RunsKeep (⟦<P as Meaning>⟧.machine p) }
{
    lawful::<P>();
}

/// A run that goes on only grows: contents rise, but those of frozen variables stay; frozen marks,
/// handlers, handed events and tasks stay, and ended tasks stay ended.
pub fn runs_grow<P: Program>()
    ensures { (p : P) → RunsGrow (⟦<P as Meaning>⟧.machine p) }
{
    lawful::<P>();
}

/// A doomed configuration of a run is no end, and a step from it gives a doomed one or an error.
pub fn doomed_stays<P: Program>()
    ensures { (p : P) → DoomedStays (⟦<P as Meaning>⟧.machine p) }
{
    lawful::<P>();
}

/// Two runs that end without an error have one end and one length, where they don't cross, or one
/// task asks for all their freezes, or no run of the program is in error.
pub fn same_end<P: Program>()
    // The runs don't cross.
    ensures uncrossed { (p : P) → SameEndIf (⟦<P as Meaning>⟧.machine p) (λ xs ys. IsCrossed (⟦<P as Meaning>⟧.machine p) xs ys → ⊥) }
    // One task asks for all freezes.
    ensures one_asks { (p : P) → SameEndIf (⟦<P as Meaning>⟧.machine p) (λ xs ys. (t : Name P.Lat.Event)
        × FreezesAllBy (⟦<P as Meaning>⟧.machine p) t (Running (start (⟦<P as Meaning>⟧.machine p))) xs
        × FreezesAllBy (⟦<P as Meaning>⟧.machine p) t (Running (start (⟦<P as Meaning>⟧.machine p))) ys) }
    // No run of the program is in error.
    ensures no_error { (p : P) → SameEndIf (⟦<P as Meaning>⟧.machine p) (λ xs ys. NeverErrs (⟦<P as Meaning>⟧.machine p)) }
{
    lawful::<P>();
}

/// Two runs that end without an error have the same labels in some order, where they don't cross, or
/// one task asks for all their freezes, or no run of the program is in error.
///
/// So they are equivalent traces in Mazurkiewicz's sense: the same steps, in another order.
pub fn same_labels<P: Program>()
    // The runs don't cross.
    ensures uncrossed { (p : P) → SameLabelsIf (⟦<P as Meaning>⟧.machine p) (λ xs ys. IsCrossed (⟦<P as Meaning>⟧.machine p) xs ys → ⊥) }
    // One task asks for all freezes.
    ensures one_asks { (p : P) → SameLabelsIf (⟦<P as Meaning>⟧.machine p) (λ xs ys. (t : Name P.Lat.Event)
        × FreezesAllBy (⟦<P as Meaning>⟧.machine p) t (Running (start (⟦<P as Meaning>⟧.machine p))) xs
        × FreezesAllBy (⟦<P as Meaning>⟧.machine p) t (Running (start (⟦<P as Meaning>⟧.machine p))) ys) }
    // No run of the program is in error.
    ensures no_error { (p : P) → SameLabelsIf (⟦<P as Meaning>⟧.machine p) (λ xs ys. NeverErrs (⟦<P as Meaning>⟧.machine p)) }
{
    lawful::<P>();
}

/// Runs that freeze variables in the same order end alike.
///
/// The order of freezes lists the variables that a run freezes, each where it is first frozen. It is
/// all that crossing speaks of.
pub fn order_decides<P: Program>()
    // Two lists of labels cross exactly where neither's order is a prefix of the other's.
    ensures crossed { (p : P) → CrossedByOrder (⟦<P as Meaning>⟧.machine p) }
    // They cross, or one's order is a prefix of the other's.
    ensures either { (p : P) → CrossOrComparable (⟦<P as Meaning>⟧.machine p) }
    // Two runs that end without an error have one end and one length, where their orders are the same.
    ensures same_order { (p : P) → SameEndIf (⟦<P as Meaning>⟧.machine p) (λ xs ys. freeze_order (⟦<P as Meaning>⟧.machine p) xs ≡ freeze_order (⟦<P as Meaning>⟧.machine p) ys) }
    // So they have where one's order is a prefix of the other's.
    ensures comparable { (p : P) → SameEndIf (⟦<P as Meaning>⟧.machine p) (λ xs ys. AreComparable (freeze_order (⟦<P as Meaning>⟧.machine p) xs) (freeze_order (⟦<P as Meaning>⟧.machine p) ys)) }
    // Two runs that end without an error cross, or have the same order.
    ensures or_same { (p : P) → CrossOrSameOrder (⟦<P as Meaning>⟧.machine p) }
{
    lawful::<P>();
}

/// The contents at an end are the least model of the program, with what the run froze.
///
/// A task plays against contents where its gets are answered from them, its freezes from what the
/// run froze, and handlers are handed the events below them. A model is contents that have all that
/// tasks put which play against them. Nothing in this speaks of the order of steps.
pub fn least_model<P: Program>()
    // The contents at an end are such a model, and no task that plays against them comes to an error
    // of its own. That is where no task is left at a freeze of a frozen variable.
    ensures closed { (p : P) → EndsAreClosed (⟦<P as Meaning>⟧.machine p) }
    // Whatever contents a run reaches, ended or not, are at or below those of each model with what
    // it froze.
    ensures least { (p : P) → RunsAreLeast (⟦<P as Meaning>⟧.machine p) }
    // Two ends that no task leaves at such a freeze have the same contents, if the same is frozen.
    ensures frozen_decides { (p : P) → FrozenDecides (⟦<P as Meaning>⟧.machine p) }
    // At such an end, exactly those play against the contents that were tasks of the run, at the
    // local states at which they were.
    ensures tasks { (p : P) → PlaysAreTasks (⟦<P as Meaning>⟧.machine p) }
    // If tasks put only events of Q, where they are answered from such and are handed such, no run
    // has another event, ended or not.
    ensures supported { (p : P) → EventsAreSupported (⟦<P as Meaning>⟧.machine p) }
{
    lawful::<P>();
}

/// One model excludes errors, if no task that plays against it comes to an error of its own.
///
/// So to show that a program without freezing meets no conflict, show one model: no run has to be
/// followed.
pub fn model_excludes_errors<P: Program>()
    // Where a run has such a model, with what it froze, its next step is no error but Frozen and
    // Late, at a variable that it froze.
    ensures but_of_freezing { (p : P) → OnlyFrozenOrLate (⟦<P as Meaning>⟧.machine p) }
    // If no task of any run asks to freeze, and there is such a model, no run is in error.
    ensures without_freezing { (p : P) → ClosedNeverErrs (⟦<P as Meaning>⟧.machine p) }
{
    lawful::<P>();
}

/// A program of which no task of any run asks to freeze is deterministic.
///
/// Kuper and Newton (FHPC 2013): determinism.
pub fn deterministic_without_freezing<P: Program>()
    // Any two runs that can't go on have one end and the same labels in some order, or both are in
    // error.
    ensures agree { (p : P) → NeverAsksFreeze (⟦<P as Meaning>⟧.machine p) → AgreeOrErr (⟦<P as Meaning>⟧.machine p) }
    // Where one run ends without an error, each run can be continued to this end, with the same
    // labels in all.
    ensures leads { (p : P) → NeverAsksFreeze (⟦<P as Meaning>⟧.machine p) → AllLeadToTheEnd (⟦<P as Meaning>⟧.machine p) }
{
    lawful::<P>();
}

/// Any two runs of a program agree, or here is a run of it that is in error.
///
/// Kuper, Turon, Krishnaswami and Newton (POPL 2014) have it of one of the two runs, which they call
/// quasi-determinism. Here a task can compute with what it froze, and the run in error may be a
/// third one, as in `examples::crossing_runs`.
pub fn agree_or_some_run_errs<P: Program>()
    // Any two runs that can't go on have one end and the same labels in some order, or there is a
    // run in error.
    ensures agree { (p : P) → AgreeOrSomeErrs (⟦<P as Meaning>⟧.machine p) }
    // Where one run ends without an error, each run can be continued to this end, with the same
    // labels in all, or there is a run in error.
    ensures leads { (p : P) → AllLeadOrSomeErrs (⟦<P as Meaning>⟧.machine p) }
{
    lawful::<P>();
}

/// If no local state asks to freeze, and one run ends without an error, no run is in error, and none
/// is longer.
pub fn no_late_error<P: Program>()
    ensures { (p : P) → NoLateError (⟦<P as Meaning>⟧.machine p) }
{
    lawful::<P>();
}

/// What handlers are handed in every run: no event twice, none after the freeze, and exactly those
/// below the state at the freeze and at an end. In a run that hands the oldest event first, also one
/// task's events in the order of its puts.
///
/// A run in error is such a run and one more step, by the task that meets the error.
pub fn handing_kept<P: Program>()
    ensures { (p : P) → HandingKept (⟦<P as Meaning>⟧.machine p) }
{
    lawful::<P>();
}

/// What can wake a blocked task.
pub fn wakes_by_variable<P: Program>()
    // A live task stays as it is at every step but its own, and only a put into the variable of
    // its get can wake it; or, for a freeze, an event that is handed on its variable, or the end
    // of a task that handles one.
    ensures its_variable { (p : P) → IsWokenByItsVariable (⟦<P as Meaning>⟧.machine p) }
    // If every live task is blocked, no task can step.
    ensures all { (p : P) → AllAreBlocked (⟦<P as Meaning>⟧.machine p) }
{
    lawful::<P>();
}

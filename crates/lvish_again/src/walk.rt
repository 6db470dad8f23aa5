//! The walk of a core by the labels of a trace.

ghost use Rattle.std.specs.Prelude.{◌≡◌, ◌⊎◌, [], IfOk, IfSome, MatchOption};
ghost use Rattle.lvish_calculus.specs.Calculus.{Running, start};
ghost use Rattle.lvish_core.specs.declared.limits.TheConstants.{MOST_PROGRAM_STEPS};
ghost use Rattle.lvish_trace.specs.Traced.{labels_of};
ghost use Rattle.lvish_run.specs.Picked.{IsPicked};
ghost use Rattle.lvish_again.specs.Again.{IsCoreRun, EndsInZero};
ghost use Rattle.lvish_again.specs.Walk.{IsPickedStep, CantGo};

use crate::cut::cut;
use crate::place::place_of;
use lvish_calculus::{Label, Meaning, Program};
use lvish_core::laws::takes_core_runs;
use lvish_core::{Core, StepFault};
use lvish_lattice::Lattice;
use lvish_trace::TraceEntry;
use std::alloc::{AllocError, Global};

/// The picks of the run of these entries, without zeros at the end; `None` where they are no run of the
/// program of at most 4,294,967,295 steps in which each event is handed in the order of its introduction.
pub fn picks_of_entries<P: Program>(
    alloc: Global,
    program: &P,
    entries: &[TraceEntry<<P::Lat as Lattice>::Event>],
) -> Result<Option<Vec<u64>>, AllocError>
    ensures picks { IfOk result (λ o. MatchOption o (IsCoreRun (⟦<P as Meaning>⟧.machine program.now) (labels_of entries.now) → ⊥)
        (λ picks. IsPicked P.Lat.Event.cmp (⟦<P as Meaning>⟧.machine program.now) picks.items [] (Running (start (⟦<P as Meaning>⟧.machine program.now))) (labels_of entries.now))) }
    ensures no_zero { IfOk result (λ o. IfSome o (λ picks. EndsInZero picks.items → ⊥)) }
{
    takes_core_runs::<P>();
    let mut core = Core::new(alloc, program)?;
    let mut picks = Vec::new(alloc);
    for number in 0..entries.len() {
        match step_by(alloc, &mut core, &entries[number].label)? {
            Some(pick) => picks.push(pick)?,
            None => return Ok(None),
        }
    }
    Ok(Some(cut(picks)))
}

/// Makes the step with the label. Answers the pick that names it, which is its place among the labels
/// that the core can take; `None` where it isn't one of them, or as many steps were made as a core makes at most.
fn step_by<P: Program>(
    alloc: Global,
    core: &mut Core<'_, P>,
    label: &Label<<P::Lat as Lattice>::Event>,
) -> Result<Option<u64>, AllocError>
    ensures { IfOk result (λ o. MatchOption o (CantGo (⟦<P as Meaning>⟧.machine core.old.program) core.old label.now)
        (λ n. IsPickedStep P.Lat.Event.cmp (⟦<P as Meaning>⟧.machine core.old.program) core.old label.now n core.new)) }
{
    let labels = core.labels(alloc)?;
    let Some(place) = place_of(labels.as_slice(), label) else {
        return Ok(None);
    };
    match core.step(alloc, label) {
        Ok(_stepped) => Ok(Some(place as u64)),
        Err(StepFault::Memory) => Err(AllocError),
        Err(StepFault::NotEnabled) => Ok(None),
        Err(StepFault::Full) => Ok(None),
    }
}

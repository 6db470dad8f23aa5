//! The making of a task's step.

ghost use Rattle.std.specs.Prelude.{◌≡◌, ◌<◌, ◌≤◌, ◌+◌, ◌++◌, ◌∷◌, [], true, false, length, None, Some, IfOk, IfErr, MatchResult, option_and_then, vec_len, vec_capacity};
ghost use Rattle.lvish_calculus.specs.declared.label.Label.TheVariants.{Act};
ghost use Rattle.lvish_board.specs.Vocabulary.{ActStep};
ghost use Rattle.lvish_board.specs.Acts.{ComesOfAct, with_work};
ghost use Rattle.lvish_board.specs.declared.work.Work.TheVariants.{Act as ActOn};
ghost use Rattle.lvish_board.specs.Left.{IsStepOf, most_added};

use super::Board;
use super::note_end::note_end;
use crate::act_kind::ActKind;
use crate::asked::Asked;
use crate::board_brand::BoardBrand;
use crate::list::{leave, left_by};
use crate::newest::Newest;
use crate::room::Room;
use crate::step_work::StepWork;
use lvish_calculus::laws::lawful;
use lvish_calculus::{ErrorKind, Meaning, Program};
use lvish_core::laws::{blocked_tasks, tasks_after, wakes_at_its_spot};
use lvish_core::{Core, CoreMeaning, Moved, StepFault, Stepped, TaskNumbers};
use lvish_lattice::Lattice;
use lvish_trace::{Outcome, PackedStep, Step};
use std::alloc::Global;

impl<'p, P: Program, B: BoardBrand<P>> Board<'p, P, B> {
    /// Makes the step of a task that stands where it asks, if it can go on. Where it isn't made, nothing
    /// has changed: a blocked task is still to be parked.
    #[inline(always)]
    pub(super) fn make(
        &mut self,
        alloc: Global,
        worker: usize,
        numbers: TaskNumbers,
        asked: &mut Asked<P, B>,
        step_work: &mut StepWork<P, B>,
    ) -> ActKind
        requires running { self.old.over ≡ None }
        requires room { length self.old.trace < B.budget }
        requires live { ⟦<P as CoreMeaning>⟧.is_live self.old.core asked.old.task asked.old.from numbers }
        ensures comes { (result ≡ ActKind.Parked → ⊥) → ComesOfAct P.Lat.Event.cmp (⟦<P as Meaning>⟧.machine B.program) (⟦<P as CoreMeaning>⟧.local_in self.old.core asked.old.task ≡ Some asked.old.from) (⟦<P as CoreMeaning>⟧.can_take self.old.core (Act asked.old.task)) (length self.old.trace ≡ B.budget) worker asked.old self.old self.new (with_work result (ActOn asked.old) step_work.new) }
        ensures blocked { result ≡ ActKind.Parked → (⟦<P as CoreMeaning>⟧.can_take self.old.core (Act asked.old.task) → ⊥) × (self.new ≡ self.old) × (asked.new ≡ asked.old) }
        ensures kept { result ≡ ActKind.Memory → self.new ≡ self.old }
        ensures back { result ≡ ActKind.Memory → asked.new ≡ asked.old }
    {
        lawful::<P>();
        blocked_tasks::<P>();
        wakes_at_its_spot::<P>();
        tasks_after::<P>();
        let step = Step::Act(numbers.index);
        let parked = self.parked.len();
        let next = self.core.tasks();
        let (logged, stepped, moved) = match step_with_room(
            alloc,
            &mut self.core,
            &mut self.newest,
            &mut self.trace,
            &mut self.room,
            parked,
            worker,
            numbers,
            asked,
        ) {
            Ok(made) => made,
            Err(StepFault::NotEnabled) => return ActKind::Parked,
            Err(_) => return ActKind::Memory,
        };
        self.core.each_task_once();
        match stepped {
            Stepped::Error(kind) => {
                drop(moved);
                self.newest.clear(numbers.index);
                self.over = Some(error_outcome(&self.core, kind, asked));
                step_work.empty(step);
                ActKind::Gone
            }
            Stepped::Done => {
                let left = left_by(step, asked, next, &mut self.newest, moved);
                let goes_on = left.own.is_some();
                leave(
                    &self.core,
                    &mut self.parked,
                    left,
                    &mut self.room,
                    logged,
                    step_work,
                );
                note_end(&self.core, &self.parked, &mut self.over);
                next_or_gone(goes_on)
            }
        }
    }
}

/// What came of a step, by whether its task goes on.
#[inline(always)]
fn next_or_gone(goes_on: bool) -> ActKind
    ensures next { goes_on ≡ true → result ≡ ActKind.Next }
    ensures gone { goes_on ≡ false → result ≡ ActKind.Gone }
{
    if goes_on {
        ActKind::Next
    } else {
        ActKind::Gone
    }
}

/// Makes the task's step and writes it down, with room for the work that it leaves. It answers the
/// number of entries that its put's variable had in its log, and what the step led to and moved.
///
/// # Errors
///
/// Where there is no room for it; core and trace are as they were.
fn step_with_room<P: Program, B: BoardBrand<P>>(
    alloc: Global,
    core: &mut Core<'_, P>,
    newest: &mut Newest<P, B>,
    trace: &mut Vec<PackedStep>,
    room: &mut Room<P, B>,
    parked: usize,
    worker: usize,
    numbers: TaskNumbers,
    asked: &mut Asked<P, B>,
) -> Result<(usize, Stepped, Moved<<P::Lat as Lattice>::Event, P::Local>), StepFault>
    requires program { core.old.program ≡ B.program }
    requires live { ⟦<P as CoreMeaning>⟧.is_live core.old asked.old.task asked.old.from numbers }
    ensures made { IfOk result (λ s. IsStepOf P.Lat.Event.cmp (⟦<P as Meaning>⟧.machine B.program) core.old asked.old core.new s.0 room.new.concerned.items s.1 s.2) }
    ensures written { IfOk result (λ _. trace.new.items ≡ trace.old.items ++ record { worker = worker; step = ActStep numbers.index } ∷ []) }
    ensures empty { IfOk result (λ _. (room.new.woken.items ≡ []) × (room.new.hands.items ≡ [])) }
    ensures woken_room { IfOk result (λ _. parked ≤ vec_capacity room.new.woken) }
    ensures concerned_room { IfOk result (λ _. length room.new.concerned.items + most_added ((P.functions B.program).request asked.old.from) ≤ vec_capacity room.new.concerned) }
    ensures hands_room { IfOk result (λ _. length room.new.concerned.items + most_added ((P.functions B.program).request asked.old.from) ≤ vec_capacity room.new.hands) }
    ensures kept { IfErr result (λ e. ⟦<P as CoreMeaning>⟧.is_refused core.old (Act asked.old.task) e × (core.new ≡ core.old) × (trace.new.items ≡ trace.old.items)) }
    ensures newest { newest.new ≡ newest.old }
    ensures same { asked.new ≡ asked.old }
{
    let noted = PackedStep::new(worker, Step::Act(numbers.index))?;
    let logged = room.reserve_for(core, parked, asked)?;
    trace.reserve(1)?;
    newest.reserve()?;
    has_all_variables(core);
    let (stepped, moved) = step(alloc, core, trace, noted, numbers, asked)?;
    has_all_variables(core);
    Ok((logged, stepped, moved))
}

/// Makes the task's step, and writes it down.
///
/// # Errors
///
/// Where there is no room for it; nothing has changed.
fn step<P: Program, B: BoardBrand<P>>(
    alloc: Global,
    core: &mut Core<'_, P>,
    trace: &mut Vec<PackedStep>,
    noted: PackedStep,
    numbers: TaskNumbers,
    asked: &mut Asked<P, B>,
) -> Result<(Stepped, Moved<<P::Lat as Lattice>::Event, P::Local>), StepFault>
    requires program { core.old.program ≡ B.program }
    requires live { ⟦<P as CoreMeaning>⟧.is_live core.old asked.old.task asked.old.from numbers }
    requires room { vec_len trace.old < vec_capacity trace.old }
    ensures stepped { MatchResult result (λ s. ⟦<P as CoreMeaning>⟧.is_step core.old (Act asked.old.task) core.new s.0) (λ e. ⟦<P as CoreMeaning>⟧.is_refused core.old (Act asked.old.task) e × (core.new ≡ core.old)) }
    ensures moved { IfOk result (λ s. ⟦<P as CoreMeaning>⟧.is_moved core.old (Act asked.old.task) s.1) }
    ensures written { MatchResult result (λ _. trace.new.items ≡ trace.old.items ++ noted ∷ []) (λ _. trace.new ≡ trace.old) }
    ensures same { asked.new ≡ asked.old }
{
    let stepped = asked.step(alloc, core, numbers)?;
    trace.push_reserved(noted);
    Ok(stepped)
}

/// How a run is over whose last step, the task's, gave an error.
#[inline(never)]
fn error_outcome<P: Program, B: BoardBrand<P>>(
    core: &Core<'_, P>,
    kind: ErrorKind,
    asked: &mut Asked<P, B>,
) -> Outcome<<P::Lat as Lattice>::Event>
    ensures { result ≡ Outcome.Error kind (option_and_then (λ f. f.variable) core.now.fault) asked.old.task }
{
    Outcome::Error {
        kind,
        variable: core.fault().and_then(|fault| fault.variable),
        task: asked.take_task(),
    }
}

/// A core has the variables of its program, whatever steps it has made.
pub(super) fn has_all_variables<P: Program>(core: &Core<'_, P>)
    ensures { length core.now.table.variables ≡ (P.functions core.now.program).variables }
{
    core.states();
}

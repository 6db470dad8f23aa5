//! A task's step.

ghost use Rattle.std.specs.Prelude.{◌≡◌, ◌≢◌, ◌++◌, ◌∷◌, ◌↔◌, [], true, false, length, None, Some, IfOk, IfErr, IsSome, IsTrue, MatchOption};
ghost use Rattle.lvish_calculus.specs.declared.label.Label.TheVariants.{Act};
ghost use Rattle.lvish_board.specs.declared.work.Work.TheVariants.{Act as ActOn};
ghost use Rattle.lvish_board.specs.Acts.{entry_of, is_step, is_gone, is_over, is_stale, is_parked, GivesBack, ComesInOrder, ComesOfAct, ComesOfNoAct, IsDone, HasOwn, ListsWork, KeepsAtMemory, NotesStep, with_work};
ghost use Rattle.lvish_core.specs.Tasks.{IsAt};
ghost use Rattle.lvish_board.specs.Stand.{TaskStand};
ghost use Rattle.lvish_board.specs.Woken.{IsParkedBeside};

use super::Board;
use super::note_end::note_end;
use crate::act_answer::ActAnswer;
use crate::act_kind::ActKind;
use crate::asked::Asked;
use crate::board_brand::BoardBrand;
use crate::step_work::StepWork;
use crate::work::Work;
use lvish_calculus::{Meaning, Program};
use lvish_core::laws::blocked_tasks;
use lvish_core::{CoreMeaning, TaskNumbers};
use lvish_trace::{Outcome, Step};
use std::alloc::Global;

impl<'p, P: Program, B: BoardBrand<P>> Board<'p, P, B> {
    /// Makes what the task asks for, by this worker.
    pub fn act(&mut self, alloc: Global, worker: usize, asked: Asked<P, B>) -> ActAnswer<P, B>
        // The board was over; the task isn't at this state; it is blocked; the budget is used up; memory was refused, to
        // a step or to the parking of a blocked task; a step was made: the first of these.
        ensures order { ComesInOrder (⟦<P as CoreMeaning>⟧.local_in self.old.core asked.task ≡ Some asked.from) (⟦<P as CoreMeaning>⟧.can_take self.old.core (Act asked.task)) (length self.old.trace ≡ B.budget) self.old.over result }
        // Without a step neither the trace nor the core changes.
        ensures stays { is_step result ≡ false → (self.new.trace ≡ self.old.trace) × (self.new.core ≡ self.old.core) }
        // A step adds itself to the trace.
        ensures step { is_step result ≡ true → self.new.trace ≡ self.old.trace ++ entry_of worker (Act asked.task) ∷ [] }
        // The task has ended by it or met an error.
        ensures gone { is_step result ≡ true → (is_gone result ≡ true) ↔ IsDone (⟦<P as Meaning>⟧.machine B.program) self.new.core asked.task }
        ensures list { ListsWork P.Lat.Event.cmp (⟦<P as Meaning>⟧.machine B.program) self.old (Act asked.task) self.new result }
        ensures noted { NotesStep (Act asked.task) self.new result }
        // Its next ticket is there just where the task goes on.
        ensures own { HasOwn result }
        // A board that is over stays as it is.
        ensures over { is_over result ≡ true → IsSome self.new.over }
        // Also where the budget makes it over, every task that is parked stays so.
        ensures keeps { is_over result ≡ true → self.new.parked ≡ self.old.parked }
        ensures done { IsSome self.old.over → (result ≡ ActAnswer.Over) × (self.new ≡ self.old) }
        ensures stale { is_stale result ≡ true → self.new ≡ self.old }
        ensures parked { is_parked result ≡ true → IsParkedBeside self.old.parked asked self.new.parked }
        ensures memory { GivesBack (ActOn asked) result × KeepsAtMemory self.old self.new result }
    {
        let mut slot = Some(asked);
        let mut left = StepWork::none(alloc, Step::Act(0));
        let came = self.act_into(alloc, worker, &mut slot, &mut left);
        ActAnswer::of(came, as_work(slot), left)
    }

    /// Does what [`act`](Board::act) does, with the work that a step leaves in `step_work`, in place of
    /// what is there. What is left of the task stays in its slot, so that a caller with a lock can
    /// drop it once the board is free.
    pub fn act_into(
        &mut self,
        alloc: Global,
        worker: usize,
        asked: &mut Option<Asked<P, B>>,
        step_work: &mut StepWork<P, B>,
    ) -> ActKind
        requires there { IsSome asked.old }
        // All that `act` ensures, of this answer and this work.
        ensures comes { (a : TaskStand P.Lat.Event P.Local) → asked.old ≡ Some a → ComesOfAct P.Lat.Event.cmp (⟦<P as Meaning>⟧.machine B.program) (⟦<P as CoreMeaning>⟧.local_in self.old.core a.task ≡ Some a.from) (⟦<P as CoreMeaning>⟧.can_take self.old.core (Act a.task)) (length self.old.trace ≡ B.budget) worker a self.old self.new (with_work result (ActOn a) step_work.new) }
        // Where memory was refused the task is in its slot.
        ensures back { result ≡ ActKind.Memory → asked.new ≡ asked.old }
    {
        self.index_for(asked);
        self.act_indexed(alloc, worker, asked, step_work)
    }

    /// Makes the index of names whole for a ticket whose stamp doesn't say where its task stands.
    #[inline(always)]
    fn index_for(&mut self, asked: &Option<Asked<P, B>>)
        ensures { self.new ≡ self.old }
    {
        if let Some(asked) = asked {
            if !self.newest.is(asked.index(), asked.stamp()) {
                self.index_names();
            }
        }
    }

    /// Makes the index of the names of its tasks whole. It isn't inlined, since only old tickets and those
    /// of other boards need it.
    #[inline(never)]
    fn index_names(&mut self)
        ensures { self.new ≡ self.old }
    {
        self.core.index_names();
    }

    /// The same, where the names are indexed if one of them is to be found.
    #[inline(always)]
    fn act_indexed(
        &mut self,
        alloc: Global,
        worker: usize,
        asked: &mut Option<Asked<P, B>>,
        step_work: &mut StepWork<P, B>,
    ) -> ActKind
        requires there { IsSome asked.old }
        ensures comes { (a : TaskStand P.Lat.Event P.Local) → asked.old ≡ Some a → ComesOfAct P.Lat.Event.cmp (⟦<P as Meaning>⟧.machine B.program) (⟦<P as CoreMeaning>⟧.local_in self.old.core a.task ≡ Some a.from) (⟦<P as CoreMeaning>⟧.can_take self.old.core (Act a.task)) (length self.old.trace ≡ B.budget) worker a self.old self.new (with_work result (ActOn a) step_work.new) }
        ensures back { result ≡ ActKind.Memory → asked.new ≡ asked.old }
    {
        if self.over.is_some() {
            return ActKind::Over;
        }
        let Some(task) = asked.as_mut() else {
            unreachable!()
        };
        let Some(numbers) = self.current(task) else {
            return ActKind::Stale;
        };
        if self.trace.len() as u64 >= self.budget {
            return self.act_no_more(alloc, numbers.index, asked, &mut step_work.spare);
        }
        match self.make(alloc, worker, numbers, task, step_work) {
            ActKind::Parked => self.park(alloc, numbers.index, asked, &mut step_work.spare),
            ActKind::Memory => self.not_made(alloc, numbers.index, asked, &mut step_work.spare),
            ActKind::Next => ActKind::Next,
            ActKind::Gone => ActKind::Gone,
            ActKind::Over => ActKind::Over,
            ActKind::Stale => ActKind::Stale,
        }
    }

    /// What comes of an act where the budget is used up: the task is parked where it is blocked, else
    /// the board is over.
    #[inline(never)]
    fn act_no_more(
        &mut self,
        alloc: Global,
        index: usize,
        slot: &mut Option<Asked<P, B>>,
        spare: &mut Option<P::Local>,
    ) -> ActKind
        requires running { self.old.over ≡ None }
        requires used { length self.old.trace ≡ B.budget }
        requires there { IsSome slot.old }
        requires current { (a : TaskStand P.Lat.Event P.Local) → slot.old ≡ Some a → ⟦<P as CoreMeaning>⟧.local_in self.old.core a.task ≡ Some a.from }
        requires at { (a : TaskStand P.Lat.Event P.Local) → slot.old ≡ Some a → IsAt self.old.core.table.tasks index a.task }
        ensures trace { self.new.trace ≡ self.old.trace }
        ensures core { self.new.core ≡ self.old.core }
        ensures came { (a : TaskStand P.Lat.Event P.Local) → slot.old ≡ Some a → ComesOfNoAct (⟦<P as CoreMeaning>⟧.can_take self.old.core (Act a.task)) (length self.old.trace ≡ B.budget) a self.old self.new result }
        ensures back { result ≡ ActKind.Memory → slot.new ≡ slot.old }
    {
        let Some(asked) = slot.as_ref() else {
            unreachable!()
        };
        if !self.can_go_on(asked) {
            return self.park(alloc, index, slot, spare);
        }
        self.over = Some(Outcome::Budget);
        ActKind::Over
    }

    /// What comes of an act for whose step there is no memory, where the task may be blocked besides and the
    /// budget isn't used up.
    #[inline(never)]
    fn not_made(
        &mut self,
        alloc: Global,
        index: usize,
        slot: &mut Option<Asked<P, B>>,
        spare: &mut Option<P::Local>,
    ) -> ActKind
        requires running { self.old.over ≡ None }
        requires there { IsSome slot.old }
        requires current { (a : TaskStand P.Lat.Event P.Local) → slot.old ≡ Some a → ⟦<P as CoreMeaning>⟧.local_in self.old.core a.task ≡ Some a.from }
        requires at { (a : TaskStand P.Lat.Event P.Local) → slot.old ≡ Some a → IsAt self.old.core.table.tasks index a.task }
        ensures trace { self.new.trace ≡ self.old.trace }
        ensures core { self.new.core ≡ self.old.core }
        ensures came { (a : TaskStand P.Lat.Event P.Local) → slot.old ≡ Some a → (length self.old.trace ≡ B.budget → ⊥) → ComesOfNoAct (⟦<P as CoreMeaning>⟧.can_take self.old.core (Act a.task)) (length self.old.trace ≡ B.budget) a self.old self.new result }
        ensures back { result ≡ ActKind.Memory → slot.new ≡ slot.old }
    {
        let Some(asked) = slot.as_ref() else {
            unreachable!()
        };
        if self.can_go_on(asked) {
            return ActKind::Memory;
        }
        self.park(alloc, index, slot, spare)
    }

    /// The task's numbers, where it is there in the local state in which it asks.
    #[inline(always)]
    fn current(&self, asked: &Asked<P, B>) -> Option<TaskNumbers>
        ensures { MatchOption result (⟦<P as CoreMeaning>⟧.local_in self.now.core asked.now.task ≢ Some asked.now.from) (λ n. ⟦<P as CoreMeaning>⟧.is_live self.now.core asked.now.task asked.now.from n) }
    {
        let index = asked.index();
        if self.newest.is(index, asked.stamp()) {
            self.core.numbers_at(index)
        } else {
            self.current_by_name(asked)
        }
    }

    /// The same, for a ticket of which its stamp doesn't say so. It isn't inlined, since only old
    /// tickets and those of other boards need it.
    #[inline(never)]
    fn current_by_name(&self, asked: &Asked<P, B>) -> Option<TaskNumbers>
        ensures { MatchOption result (⟦<P as CoreMeaning>⟧.local_in self.now.core asked.now.task ≢ Some asked.now.from) (λ n. ⟦<P as CoreMeaning>⟧.is_live self.now.core asked.now.task asked.now.from n) }
    {
        match self.core.standing_of(asked.task()) {
            Some((local, numbers)) if local == asked.from() => Some(numbers),
            _ => None,
        }
    }

    /// Whether the step of a task can be made.
    fn can_go_on(&self, asked: &Asked<P, B>) -> bool
        requires current { ⟦<P as CoreMeaning>⟧.local_in self.now.core asked.now.task ≡ Some asked.now.from }
        ensures { IsTrue result ↔ ⟦<P as CoreMeaning>⟧.can_take self.now.core (Act asked.now.task) }
    {
        self.core.can_act(asked.task(), asked.request())
    }

    /// Parks a blocked task. The local state in which it asks goes to `spare`.
    #[inline(never)]
    fn park(
        &mut self,
        alloc: Global,
        index: usize,
        slot: &mut Option<Asked<P, B>>,
        spare: &mut Option<P::Local>,
    ) -> ActKind
        requires running { self.old.over ≡ None }
        requires there { IsSome slot.old }
        requires current { (a : TaskStand P.Lat.Event P.Local) → slot.old ≡ Some a → ⟦<P as CoreMeaning>⟧.local_in self.old.core a.task ≡ Some a.from }
        requires at { (a : TaskStand P.Lat.Event P.Local) → slot.old ≡ Some a → IsAt self.old.core.table.tasks index a.task }
        requires blocked { (a : TaskStand P.Lat.Event P.Local) → slot.old ≡ Some a → ⟦<P as CoreMeaning>⟧.can_take self.old.core (Act a.task) → ⊥ }
        ensures trace { self.new.trace ≡ self.old.trace }
        ensures core { self.new.core ≡ self.old.core }
        ensures came { (a : TaskStand P.Lat.Event P.Local) → slot.old ≡ Some a → ComesOfNoAct (⟦<P as CoreMeaning>⟧.can_take self.old.core (Act a.task)) (length self.old.trace ≡ B.budget) a self.old self.new result }
        ensures back { result ≡ ActKind.Memory → slot.new ≡ slot.old }
    {
        blocked_tasks::<P>();
        self.core.each_task_once();
        *spare = rest_in(slot);
        match self.parked.park(alloc, index, slot) {
            Ok(()) => {
                note_end(&self.core, &self.parked, &mut self.over);
                ActKind::Parked
            }
            Err(_refused) => ActKind::Memory,
        }
    }
}

/// Gives away the local state in which the task in its slot asks.
#[inline(always)]
fn rest_in<P: Program, B: BoardBrand<P>>(slot: &mut Option<Asked<P, B>>) -> Option<P::Local>
    ensures { slot.new ≡ slot.old }
{
    match slot {
        Some(asked) => asked.rest(),
        None => None,
    }
}

/// The work of a task, if there is one.
fn as_work<P: Program, B: BoardBrand<P>>(asked: Option<Asked<P, B>>) -> Option<Work<P, B>>
    ensures { (a : TaskStand P.Lat.Event P.Local) → asked ≡ Some a → result ≡ Some (ActOn a) }
{
    match asked {
        Some(asked) => Some(Work::Act(asked)),
        None => None,
    }
}

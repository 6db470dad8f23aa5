//! A handler's step.

ghost use Rattle.std.specs.Prelude.{◌≡◌, ◌<◌, ◌≤◌, ◌+◌, ◌++◌, ◌∷◌, ◌↔◌, [], true, false, length, None, Some, IfOk, IfErr, IsSome, IsTrue, MatchOption, vec_capacity};
ghost use Rattle.lvish_calculus.specs.declared.label.Label.TheVariants.{Hand};
ghost use Rattle.lvish_board.specs.declared.work.Work.TheVariants.{Hand as HandTo};
ghost use Rattle.lvish_board.specs.declared.act_answer.ActAnswer.TheVariants.{Next};
ghost use Rattle.lvish_core.specs.declared.fault.Stepped.{Stepped};
ghost use Rattle.lvish_core.specs.Handed.{IsHanded};
ghost use Rattle.lvish_board.specs.Acts.{entry_of, is_step, is_gone, is_memory, is_over, is_stale, is_parked, GivesBack, ComesInOrder, ComesOfHand, ComesOfNoHanding, HasNoOwn, ListsWork, KeepsAtMemory, NotesStep, with_work};
ghost use Rattle.lvish_names.specs.Names.{Handler};

use super::Board;
use super::make::has_all_variables;
use super::note_end::note_end;
use crate::act_answer::ActAnswer;
use crate::act_kind::ActKind;
use crate::board_brand::BoardBrand;
use crate::list::{OwnWork, leave, ticket_of};
use crate::newest::Newest;
use crate::room::Room;
use crate::step_work::StepWork;
use crate::work::Work;
use lvish_calculus::{Meaning, Program};
use lvish_core::laws::{blocked_tasks, hands_one_event, tasks_after, wakes_at_its_spot};
use lvish_core::{Core, CoreMeaning, Moved, StepFault};
use lvish_lattice::Lattice;
use lvish_names::HandlerName;
use lvish_trace::{Outcome, PackedStep, Step};
use std::alloc::Global;

impl<'p, P: Program, B: BoardBrand<P>> Board<'p, P, B> {
    /// Hands the handler what comes next for it, by this worker.
    pub fn hand(
        &mut self,
        alloc: Global,
        worker: usize,
        handler: HandlerName<<P::Lat as Lattice>::Event>,
    ) -> ActAnswer<P, B>
        // The board was over; there is no such handler; nothing comes next for it; the budget is used up; memory was
        // refused; a step was made: the first of these.
        ensures order { ComesInOrder (⟦<P as CoreMeaning>⟧.is_held self.old.core handler) ((e : P.Lat.Event) × ⟦<P as CoreMeaning>⟧.is_next self.old.core handler e) (length self.old.trace ≡ B.budget) self.old.over result }
        // Without a step neither the trace, the core nor the parked tasks change.
        ensures stays { is_step result ≡ false → (self.new.trace ≡ self.old.trace) × (self.new.core ≡ self.old.core) × (self.new.parked ≡ self.old.parked) }
        // A step hands what came next, adds itself to the trace, and leaves its work.
        ensures step { is_step result ≡ true → (e : P.Lat.Event) × ⟦<P as CoreMeaning>⟧.is_next self.old.core handler e × (self.new.trace ≡ self.old.trace ++ entry_of worker (Hand handler e) ∷ []) × ListsWork P.Lat.Event.cmp (⟦<P as Meaning>⟧.machine B.program) self.old (Hand handler e) self.new result × NotesStep (Hand handler e) self.new result }
        ensures gone { is_gone result ≡ false }
        // No task has acted.
        ensures own { HasNoOwn result }
        // A board that is over stays as it is.
        ensures over { is_over result ≡ true → IsSome self.new.over }
        ensures done { IsSome self.old.over → (result ≡ ActAnswer.Over) × (self.new ≡ self.old) }
        ensures stale { is_stale result ≡ true → self.new ≡ self.old }
        ensures parked { is_parked result ≡ true → self.new ≡ self.old }
        ensures memory { GivesBack (HandTo handler) result × KeepsAtMemory self.old self.new result }
        // Memory is refused to a step alone.
        ensures refused { is_memory result ≡ true → (e : P.Lat.Event) × ⟦<P as CoreMeaning>⟧.is_next self.old.core handler e }
    {
        let mut slot = Some(handler);
        let mut left = StepWork::none(alloc, Step::Hand(0));
        let came = self.hand_into(alloc, worker, &mut slot, &mut left);
        ActAnswer::of(came, as_work(slot), left)
    }

    /// Does what [`hand`](Board::hand) does, with the work that a step leaves in `step_work`, in place of
    /// what is there.
    pub fn hand_into(
        &mut self,
        alloc: Global,
        worker: usize,
        handler: &mut Option<HandlerName<<P::Lat as Lattice>::Event>>,
        step_work: &mut StepWork<P, B>,
    ) -> ActKind
        requires there { IsSome handler.old }
        // All that `hand` ensures, of this answer and this work.
        ensures comes { (h : Handler P.Lat.Event) → handler.old ≡ Some h → ComesOfHand P.Lat.Event.cmp (⟦<P as Meaning>⟧.machine B.program) (⟦<P as CoreMeaning>⟧.is_held self.old.core h) (⟦<P as CoreMeaning>⟧.is_next self.old.core h) (length self.old.trace ≡ B.budget) worker h self.old self.new (with_work result (HandTo h) step_work.new) }
        // Where memory was refused the handler is in its slot.
        ensures back { result ≡ ActKind.Memory → handler.new ≡ handler.old }
    {
        hands_one_event::<P>();
        if self.over.is_some() {
            return ActKind::Over;
        }
        if self.trace.len() as u64 >= self.budget {
            return self.hand_no_more(handler);
        }
        if self.make_hand(alloc, worker, handler, step_work) {
            ActKind::Next
        } else {
            self.not_handed(handler)
        }
    }

    /// What comes of a handing where the budget is used up: the board is over where an event comes next
    /// for the handler.
    #[inline(never)]
    fn hand_no_more(&mut self, slot: &Option<HandlerName<<P::Lat as Lattice>::Event>>) -> ActKind
        requires running { self.old.over ≡ None }
        requires used { length self.old.trace ≡ B.budget }
        requires there { IsSome slot.now }
        ensures stays { (self.new.trace ≡ self.old.trace) × (self.new.core ≡ self.old.core) × (self.new.parked ≡ self.old.parked) }
        ensures came { (h : Handler P.Lat.Event) → slot.now ≡ Some h → ComesOfNoHanding (⟦<P as CoreMeaning>⟧.is_held self.old.core h) (⟦<P as CoreMeaning>⟧.is_next self.old.core h) (length self.old.trace ≡ B.budget) self.old self.new result }
    {
        hands_one_event::<P>();
        let Some(handler) = slot.as_ref() else {
            unreachable!()
        };
        let Some(_event) = self.next(handler) else {
            return self.idle(handler);
        };
        self.over = Some(Outcome::Budget);
        ActKind::Over
    }

    /// What comes of a handing that isn't made where the budget isn't used up: nothing comes next, or there is
    /// no memory.
    #[inline(never)]
    fn not_handed(&self, slot: &Option<HandlerName<<P::Lat as Lattice>::Event>>) -> ActKind
        requires there { IsSome slot.now }
        ensures { (h : Handler P.Lat.Event) → slot.now ≡ Some h → (length self.now.trace ≡ B.budget → ⊥) → ComesOfNoHanding (⟦<P as CoreMeaning>⟧.is_held self.now.core h) (⟦<P as CoreMeaning>⟧.is_next self.now.core h) (length self.now.trace ≡ B.budget) self.now self.now result }
    {
        let Some(handler) = slot.as_ref() else {
            unreachable!()
        };
        match self.next(handler) {
            Some(_event) => ActKind::Memory,
            None => self.idle(handler),
        }
    }

    /// What comes of a handing where nothing comes next for the handler.
    fn idle(&self, handler: &HandlerName<<P::Lat as Lattice>::Event>) -> ActKind
        requires drained { (e : P.Lat.Event) → ⟦<P as CoreMeaning>⟧.is_next self.now.core handler.now e → ⊥ }
        ensures { ComesOfNoHanding (⟦<P as CoreMeaning>⟧.is_held self.now.core handler.now) (⟦<P as CoreMeaning>⟧.is_next self.now.core handler.now) (length self.now.trace ≡ B.budget) self.now self.now result }
    {
        if self.holds(handler) {
            ActKind::Parked
        } else {
            ActKind::Stale
        }
    }

    /// Whether there is such a handler.
    fn holds(&self, handler: &HandlerName<<P::Lat as Lattice>::Event>) -> bool
        ensures { IsTrue result ↔ ⟦<P as CoreMeaning>⟧.is_held self.now.core handler.now }
    {
        self.core.holds(handler)
    }

    /// What comes next for the handler.
    fn next(
        &self,
        handler: &HandlerName<<P::Lat as Lattice>::Event>,
    ) -> Option<<P::Lat as Lattice>::Event>
        ensures { MatchOption result ((e : P.Lat.Event) → ⟦<P as CoreMeaning>⟧.is_next self.now.core handler.now e → ⊥) (λ e. ⟦<P as CoreMeaning>⟧.is_next self.now.core handler.now e) }
    {
        self.core.next(handler)
    }

    /// Makes the handing of what comes next, and answers whether it did. Where it isn't made, nothing has
    /// changed.
    #[inline(always)]
    fn make_hand(
        &mut self,
        alloc: Global,
        worker: usize,
        handler: &mut Option<HandlerName<<P::Lat as Lattice>::Event>>,
        step_work: &mut StepWork<P, B>,
    ) -> bool
        requires running { self.old.over ≡ None }
        requires room { length self.old.trace < B.budget }
        requires there { IsSome handler.old }
        ensures comes { result ≡ true → (h : Handler P.Lat.Event) → handler.old ≡ Some h → ComesOfHand P.Lat.Event.cmp (⟦<P as Meaning>⟧.machine B.program) (⟦<P as CoreMeaning>⟧.is_held self.old.core h) (⟦<P as CoreMeaning>⟧.is_next self.old.core h) (length self.old.trace ≡ B.budget) worker h self.old self.new (Next step_work.new) }
        ensures kept { result ≡ false → self.new ≡ self.old }
        ensures back { result ≡ false → handler.new ≡ handler.old }
    {
        blocked_tasks::<P>();
        wakes_at_its_spot::<P>();
        tasks_after::<P>();
        let step = Step::Hand(self.core.tasks());
        let parked = self.parked.len();
        let Some(name) = handler.as_ref() else {
            unreachable!()
        };
        let Ok(moved) = hand_with_room(
            alloc,
            &mut self.core,
            &mut self.newest,
            &mut self.trace,
            &mut self.room,
            parked,
            worker,
            step,
            name,
        ) else {
            return false;
        };
        self.core.each_task_once();
        let added = handler.take();
        let left = OwnWork {
            step,
            own: None,
            made: ticket_of(moved.made, step.index(), &mut self.newest),
            added,
        };
        leave(
            &self.core,
            &mut self.parked,
            left,
            &mut self.room,
            0,
            step_work,
        );
        note_end(&self.core, &self.parked, &mut self.over);
        true
    }
}

/// The work of a handler, if there is one.
fn as_work<P: Program, B: BoardBrand<P>>(
    handler: Option<HandlerName<<P::Lat as Lattice>::Event>>,
) -> Option<Work<P, B>>
    ensures { (h : Handler P.Lat.Event) → handler ≡ Some h → result ≡ Some (HandTo h) }
{
    match handler {
        Some(handler) => Some(Work::Hand(handler)),
        None => None,
    }
}

/// Makes the handing and writes it down, with room for the work that it leaves. It answers what the
/// step moved.
///
/// # Errors
///
/// Where there is no room for it; core and trace are as they were.
fn hand_with_room<P: Program, B: BoardBrand<P>>(
    alloc: Global,
    core: &mut Core<'_, P>,
    newest: &mut Newest<P, B>,
    trace: &mut Vec<PackedStep>,
    room: &mut Room<P, B>,
    parked: usize,
    worker: usize,
    step: Step,
    handler: &HandlerName<<P::Lat as Lattice>::Event>,
) -> Result<Moved<<P::Lat as Lattice>::Event, P::Local>, StepFault>
    requires program { core.old.program ≡ B.program }
    ensures made { IfOk result (λ m. (said : Stepped) × IsHanded (⟦<P as Meaning>⟧.machine B.program) core.old handler.now core.new said m) }
    ensures long { IfOk result (λ _. length core.old.table.variables ≡ length core.new.table.variables) }
    ensures written { IfOk result (λ _. trace.new.items ≡ trace.old.items ++ record { worker = worker; step = step } ∷ []) }
    ensures empty { IfOk result (λ _. (room.new.woken.items ≡ []) × (room.new.concerned.items ≡ []) × (room.new.hands.items ≡ [])) }
    ensures woken_room { IfOk result (λ _. parked ≤ vec_capacity room.new.woken) }
    ensures concerned_room { IfOk result (λ _. 1 ≤ vec_capacity room.new.concerned) }
    ensures hands_room { IfOk result (λ _. 1 ≤ vec_capacity room.new.hands) }
    ensures newest { newest.new ≡ newest.old }
    ensures kept { IfErr result (λ _. (core.new ≡ core.old) × (trace.new.items ≡ trace.old.items)) }
{
    let noted = PackedStep::new(worker, step)?;
    room.reserve(parked, 1)?;
    trace.reserve(1)?;
    newest.reserve()?;
    has_all_variables(core);
    let (_done, moved) = core.step_hand(alloc, handler)?;
    has_all_variables(core);
    trace.push_reserved(noted);
    Ok(moved)
}

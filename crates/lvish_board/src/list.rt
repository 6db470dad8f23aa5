//! The work that a step leaves.
//!
//! The functions are inlined into the board's, since what passes between them is large, and would be
//! moved at each call.

ghost use Rattle.std.specs.Prelude.{◌≡◌, ◌≤◌, ◌+◌, List, Option, [], length, vec_len, vec_capacity};
ghost use Rattle.lvish_calculus.specs.Handing.{IsAmong, NoRepeats};
ghost use Rattle.lvish_board.specs.Stand.{TaskStand};
ghost use Rattle.lvish_board.specs.Newest.{IsSetAt, IsSetIf};
ghost use Rattle.lvish_trace.specs.PackedView.{index_of};
ghost use Rattle.lvish_board.specs.Seated.{AreWithin, stands_of};
ghost use Rattle.lvish_board.specs.Board.{tasks_of};
ghost use Rattle.lvish_board.specs.Listed.{HasNext, work_of, option_list};
ghost use Rattle.lvish_board.specs.Left.{AreThose, IsLeft, IsLogged, candidates, fresh_in, own_ticket, made_ticket};

use crate::asked::Asked;
use crate::board_brand::BoardBrand;
use crate::newest::Newest;
use crate::parked::Parked;
use crate::room::{Room, give};
use crate::step_work::StepWork;
use crate::ticket::Ticket;
use lvish_calculus::{Meaning, Program};
use lvish_core::{Core, CoreMeaning, Made, Moved, Touched};
use lvish_lattice::Lattice;
use lvish_names::HandlerName;
use lvish_trace::Step;
use lvish_variable::Entry;

/// What a step leaves by itself: the tickets of its tasks, and a handler that it added.
#[derive(Drop)]
pub(crate) struct OwnWork<P: Program, B: BoardBrand<P>> {
    pub step: Step,
    pub own: Option<Ticket<P, B>>,
    pub made: Option<Ticket<P, B>>,
    pub added: Option<HandlerName<<P::Lat as Lattice>::Event>>,
}

/// What the step of a task leaves by itself.
#[inline(always)]
pub(crate) fn left_by<P: Program, B: BoardBrand<P>>(
    step: Step,
    asked: &mut Asked<P, B>,
    next: usize,
    newest: &mut Newest<P, B>,
    moved: Moved<<P::Lat as Lattice>::Event, P::Local>,
) -> OwnWork<P, B>
    ensures newest { (mid : List (Option (TaskStand P.Lat.Event P.Local))) × IsSetAt (index_of step) (own_ticket asked.old.task moved.own) newest.old mid × IsSetIf next (made_ticket moved.made) mid newest.new }
    ensures step { result.step ≡ step }
    ensures own { result.own ≡ own_ticket asked.old.task moved.own }
    ensures made { result.made ≡ made_ticket moved.made }
    ensures added { result.added ≡ moved.added }
{
    let Moved { own, made, added } = moved;
    OwnWork {
        step,
        own: own_ticket_of(step.index(), asked, own, newest),
        made: ticket_of(made, next, newest),
        added,
    }
}

/// The ticket of the task that has acted, where it goes on.
#[inline(always)]
fn own_ticket_of<P: Program, B: BoardBrand<P>>(
    index: usize,
    asked: &mut Asked<P, B>,
    own: Option<P::Local>,
    newest: &mut Newest<P, B>,
) -> Option<Ticket<P, B>>
    ensures ticket { result ≡ own_ticket asked.old.task own }
    ensures newest { IsSetAt index (own_ticket asked.old.task own) newest.old newest.new }
{
    match own {
        Some(local) => Some(Ticket::new(asked.take_task(), local, index, newest)),
        None => {
            newest.clear(index);
            None
        }
    }
}

/// The ticket of a task that a step made.
#[inline(always)]
pub(crate) fn ticket_of<P: Program, B: BoardBrand<P>>(
    made: Option<Made<<P::Lat as Lattice>::Event, P::Local>>,
    next: usize,
    newest: &mut Newest<P, B>,
) -> Option<Ticket<P, B>>
    ensures ticket { result ≡ made_ticket made }
    ensures newest { IsSetIf next (made_ticket made) newest.old newest.new }
{
    match made {
        Some(Made { name, local }) => Some(Ticket::new(name, local, next, newest)),
        None => None,
    }
}

/// The entries that the last step brought; `logged` is the length of its variable's log before it.
fn fresh<'c, P: Program>(
    core: &'c Core<'_, P>,
    logged: usize,
) -> &'c [Entry<<P::Lat as Lattice>::Event>]
    requires { IsLogged core.now.table.variables logged core.now.touched }
    ensures { result.now ≡ fresh_in core.now.table.variables logged core.now.touched }
{
    match core.last_touched() {
        Some(Touched::Put(variable)) => &core.states()[variable].log()[logged..],
        _ => &[],
    }
}

/// The work that a step leaves: the tickets, the parked tasks that it woke, by name, and of the
/// handlers that it concerned those with something left.
///
/// `room` has the handlers that the step may concern; `logged` is the length of its variable's log
/// before the step.
#[inline(always)]
pub(crate) fn leave<P: Program, B: BoardBrand<P>>(
    core: &Core<'_, P>,
    parked: &mut Parked<P, B>,
    left: OwnWork<P, B>,
    room: &mut Room<P, B>,
    logged: usize,
    step_work: &mut StepWork<P, B>,
)
    requires program { core.now.program ≡ B.program }
    requires logged { IsLogged core.now.table.variables logged core.now.touched }
    requires current { (p : TaskStand P.Lat.Event P.Local) → IsAmong p (stands_of parked.old) → ⟦<P as CoreMeaning>⟧.local_in core.now p.task ≡ Some p.from }
    requires once { NoRepeats (tasks_of (stands_of parked.old)) }
    requires empty { (room.old.woken.items ≡ []) × (room.old.hands.items ≡ []) }
    requires woken_room { length parked.old ≤ vec_capacity room.old.woken }
    requires concerned_room { length room.old.concerned.items + length (option_list left.added) ≤ vec_capacity room.old.concerned }
    requires hands_room { length room.old.concerned.items + length (option_list left.added) ≤ vec_capacity room.old.hands }
    ensures left { IsLeft P.Lat.Event.cmp (⟦<P as Meaning>⟧.machine B.program) P.Lat.spot_of P.Lat.watched core.now logged left.own left.made left.added room.old.concerned.items (stands_of parked.old) (stands_of parked.new) (work_of step_work.new) }
    ensures own { step_work.new.own ≡ left.own }
    ensures step { step_work.new.step ≡ left.step }
    ensures once { NoRepeats (tasks_of (stands_of parked.new)) }
    ensures within { AreWithin parked.new parked.old }
{
    let entries = fresh(core, logged);
    parked.wake(core, entries, &mut room.woken);
    let OwnWork {
        step,
        own,
        made,
        added,
    } = left;
    keep_candidates(entries, &mut room.concerned, added);
    list_hands(core, &mut room.concerned, &mut room.hands);
    step_work.step = step;
    step_work.own = own;
    step_work.made = made;
    give(&mut room.woken, &mut step_work.woken);
    give(&mut room.hands, &mut step_work.hands);
}

/// Leaves the handlers that a step may concern: none of a put's where it brought no entry, and an
/// added one.
#[inline(always)]
fn keep_candidates<E: Drop>(
    entries: &[Entry<E>],
    concerned: &mut Vec<HandlerName<E>>,
    added: Option<HandlerName<E>>,
)
    requires room { length concerned.old.items + length (option_list added) ≤ vec_capacity concerned.old }
    ensures are { concerned.new.items ≡ candidates entries.now concerned.old.items added }
    ensures few { vec_len concerned.new ≤ length concerned.old.items + length (option_list added) }
{
    if entries.is_empty() {
        concerned.clear();
    }
    if let Some(name) = added {
        concerned.push_reserved(name);
    }
}

/// Lists those of the handlers with something left for them, on the empty list, and empties the other.
#[inline(always)]
fn list_hands<P: Program>(
    core: &Core<'_, P>,
    concerned: &mut Vec<HandlerName<<P::Lat as Lattice>::Event>>,
    list: &mut Vec<HandlerName<<P::Lat as Lattice>::Event>>,
)
    requires empty { list.old.items ≡ [] }
    requires room { vec_len concerned.old ≤ vec_capacity list.old }
    ensures { AreThose (λ h. HasNext (⟦<P as Meaning>⟧.machine core.now.program) core.now h) concerned.old.items list.new.items }
{
    // (from the back, since what is taken out there moves no other)
    while let Some(handler) = concerned.pop() {
        if core.has_next(&handler) {
            list.push_reserved(handler);
        }
    }
    list.reverse();
}

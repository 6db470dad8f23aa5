//! What work opens in an agenda.

ghost use Rattle.std.specs.Prelude.{◌≡◌, ◌∷◌, [], IfOk, Some};
ghost use Rattle.lvish_board.specs.Listed.{work_of, option_list};
ghost use Rattle.lvish_run.specs.Agenda.{open_in, SetsOpenTask, Opens, Adds};

use crate::agenda::Agenda;
use lvish_board::{Asked, BoardBrand, StepWork, Ticket, Work, stretch};
use lvish_calculus::Program;
use lvish_lattice::Lattice;
use lvish_names::HandlerName;
use std::alloc::{AllocError, Global};

/// Opens the ticket's task, once its local statements are run.
fn open_ticket<P: Program, B: BoardBrand<P>>(
    alloc: Global,
    program: &P,
    agenda: &mut Agenda<P, B>,
    ticket: Ticket<P, B>,
) -> Result<(), AllocError>
    requires program { program.now ≡ B.program }
    ensures { IfOk result (λ _. SetsOpenTask P.Lat.Event.cmp (open_in P.Lat.Event.cmp agenda.old) ticket.task (Some ticket) (open_in P.Lat.Event.cmp agenda.new)) }
{
    match stretch(alloc, program, ticket) {
        Ok(asked) => agenda.open_task(alloc, asked),
        Err(_ticket) => Err(AllocError),
    }
}

/// Opens what one piece of work is for. A task's local statements are run.
pub(crate) fn open_one<P: Program, B: BoardBrand<P>>(
    alloc: Global,
    program: &P,
    agenda: &mut Agenda<P, B>,
    work: Work<P, B>,
) -> Result<(), AllocError>
    requires program { program.now ≡ B.program }
    ensures { IfOk result (λ _. Adds (work ∷ []) (open_in P.Lat.Event.cmp agenda.old) (open_in P.Lat.Event.cmp agenda.new)) }
{
    match work {
        Work::Stretch(ticket) => open_ticket(alloc, program, agenda, ticket),
        Work::Act(asked) => agenda.open_task(alloc, asked),
        Work::Hand(handler) => agenda.open_handler(handler),
    }
}

/// Opens the ticket's task, if there is a ticket.
fn open_some<P: Program, B: BoardBrand<P>>(
    alloc: Global,
    program: &P,
    agenda: &mut Agenda<P, B>,
    ticket: Option<Ticket<P, B>>,
) -> Result<(), AllocError>
    requires program { program.now ≡ B.program }
    ensures { IfOk result (λ _. Opens (option_list ticket) [] (open_in P.Lat.Event.cmp agenda.old) (open_in P.Lat.Event.cmp agenda.new)) }
{
    match ticket {
        Some(ticket) => open_ticket(alloc, program, agenda, ticket),
        None => Ok(()),
    }
}

/// Opens the tasks that a step woke.
fn open_woken<P: Program, B: BoardBrand<P>>(
    alloc: Global,
    agenda: &mut Agenda<P, B>,
    woken: Vec<Asked<P, B>>,
) -> Result<(), AllocError>
    ensures { IfOk result (λ _. Opens woken.items [] (open_in P.Lat.Event.cmp agenda.old) (open_in P.Lat.Event.cmp agenda.new)) }
{
    for asked in woken {
        agenda.open_task(alloc, asked)?;
    }
    Ok(())
}

/// Opens these handlers.
fn open_hands<P: Program, B: BoardBrand<P>>(
    agenda: &mut Agenda<P, B>,
    hands: Vec<HandlerName<<P::Lat as Lattice>::Event>>,
) -> Result<(), AllocError>
    ensures { IfOk result (λ _. Opens [] hands.items (open_in P.Lat.Event.cmp agenda.old) (open_in P.Lat.Event.cmp agenda.new)) }
{
    for handler in hands {
        agenda.open_handler(handler)?;
    }
    Ok(())
}

/// Opens what the work of a step is for.
pub(crate) fn open_all<P: Program, B: BoardBrand<P>>(
    alloc: Global,
    program: &P,
    agenda: &mut Agenda<P, B>,
    step_work: StepWork<P, B>,
) -> Result<(), AllocError>
    requires program { program.now ≡ B.program }
    ensures { IfOk result (λ _. Adds (work_of step_work) (open_in P.Lat.Event.cmp agenda.old) (open_in P.Lat.Event.cmp agenda.new)) }
{
    let StepWork {
        step: _,
        own,
        spare: _,
        made,
        woken,
        hands,
    } = step_work;
    open_some(alloc, program, agenda, own)?;
    open_some(alloc, program, agenda, made)?;
    open_woken(alloc, agenda, woken)?;
    open_hands(agenda, hands)
}

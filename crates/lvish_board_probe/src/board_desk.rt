//! A board of a program, as it is asked.

ghost use Rattle.std.specs.Prelude.{◌≡◌, ◌≤◌};

use crate::calls::write_answers;
use crate::desk::{Desk, Told};
use crate::seat::Seat;
use crate::text::{write_machine, write_outcome};
use lvish_board::{ActAnswer, Board, BoardBrand, Stand, StepWork, Ticket, Work, stretch};
use lvish_calculus::Program;
use lvish_core::MOST_PROGRAM_STEPS;
use lvish_history::Opened;
use lvish_lattice::{Lattice, Numbered};
use lvish_names::{HandlerName, TaskName};
use std::alloc::{AllocError, Global};

/// A board beside its program.
pub struct BoardDesk<'p, P: Program, B: BoardBrand<P>> {
    program: &'p P,
    board: Board<'p, P, B>,
    ghost same: { program.now ≡ B.program },
}

// Written out, so that it is proved once, and not at each exit of a function that owns one.
impl<'p, P: Program, B: BoardBrand<P>> Drop for BoardDesk<'p, P, B> {
    fn drop(self) {
        let BoardDesk {
            program: _,
            board: _,
        } = self;
    }
}

/// Writes what a board of the program answers to the calls, a line each. Answers the work that it has left.
pub fn write_calls<P: Program, B: BoardBrand<P>>(
    alloc: Global,
    program: &P,
    text: &mut String,
    budget: u64,
    calls: &str,
    history: Opened<Stand<P>>,
) -> Result<Vec<Work<P, B>>, AllocError>
where
    <P::Lat as Lattice>::Event: Numbered,
    requires program { program.now ≡ B.program }
    requires budget { budget ≡ B.budget }
    requires bounded { B.budget ≤ MOST_PROGRAM_STEPS }
    requires history { history.seen.book ≡ B.book }
{
    let (board, work) = opened::<P, B>(alloc, program, budget, history)?;
    let mut seat = Seat::new(alloc, BoardDesk { program, board }, work, Vec::new(alloc))?;
    write_answers(alloc, text, calls, &mut seat)?;
    Ok(seat.into_left())
}

/// Writes what a board of the program answers to the calls, which has beside its own the work that another
/// board has left.
pub fn write_calls_after<P: Program, B: BoardBrand<P>, K: BoardBrand<P>>(
    alloc: Global,
    program: &P,
    text: &mut String,
    budget: u64,
    calls: &str,
    left: Vec<Work<P, K>>,
    history: Opened<Stand<P>>,
) -> Result<(), AllocError>
where
    <P::Lat as Lattice>::Event: Numbered,
    requires program { program.now ≡ B.program }
    requires budget { budget ≡ B.budget }
    requires bounded { B.budget ≤ MOST_PROGRAM_STEPS }
    requires history { history.seen.book ≡ B.book }
{
    let (board, work) = opened::<P, B>(alloc, program, budget, history)?;
    let others = adopted_all(alloc, &board, left)?;
    let mut seat = Seat::new(alloc, BoardDesk { program, board }, work, others)?;
    write_answers(alloc, text, calls, &mut seat)
}

/// The work that another board has left, for this one.
fn adopted_all<P: Program, B: BoardBrand<P>, K: BoardBrand<P>>(
    alloc: Global,
    board: &Board<'_, P, B>,
    left: Vec<Work<P, K>>,
) -> Result<Vec<Work<P, B>>, AllocError> {
    let mut works = Vec::new(alloc);
    for work in left {
        if let Some(work) = adopted(board, work) {
            works.push(work)?;
        }
    }
    Ok(works)
}

/// Another board's work, for this one; none where it is no ticket and no handing.
fn adopted<P: Program, B: BoardBrand<P>, K: BoardBrand<P>>(
    board: &Board<'_, P, B>,
    work: Work<P, K>,
) -> Option<Work<P, B>> {
    match work {
        Work::Stretch(ticket) => Some(Work::Stretch(board.adopt(ticket))),
        Work::Hand(handler) => Some(Work::Hand(handler)),
        Work::Act(_) => None,
    }
}

/// A board at the start and main's ticket; asked for again where a growth is refused.
fn opened<P: Program, B: BoardBrand<P>>(
    alloc: Global,
    program: &P,
    budget: u64,
    history: Opened<Stand<P>>,
) -> Result<(Board<'_, P, B>, Work<P, B>), AllocError>
    requires program { program.now ≡ B.program }
    requires budget { budget ≡ B.budget }
    requires bounded { B.budget ≤ MOST_PROGRAM_STEPS }
    requires history { history.seen.book ≡ B.book }
{
    let history = match Board::new(alloc, program, budget, history) {
        Ok(opened) => return Ok(opened),
        Err(history) => history,
    };
    match Board::new(alloc, program, budget, history) {
        Ok(opened) => Ok(opened),
        Err(_history) => Err(AllocError),
    }
}

/// What a board answers to a ticket, by this worker.
fn told_ticket<P: Program, B: BoardBrand<P>>(
    alloc: Global,
    program: &P,
    board: &mut Board<'_, P, B>,
    worker: usize,
    ticket: Ticket<P, B>,
) -> ActAnswer<P, B>
    requires { program.now ≡ B.program }
{
    match stretch(alloc, program, ticket) {
        Ok(asked) => board.act(alloc, worker, asked),
        Err(ticket) => ActAnswer::Memory(Work::Stretch(ticket)),
    }
}

/// The work in a list; asked for again where a growth is refused.
fn listed<P: Program, B: BoardBrand<P>>(
    alloc: Global,
    works: StepWork<P, B>,
) -> Result<Vec<Work<P, B>>, AllocError> {
    let works = match works.into_list(alloc) {
        Ok(list) => return Ok(list),
        Err(works) => works,
    };
    match works.into_list(alloc) {
        Ok(list) => Ok(list),
        Err(_works) => Err(AllocError),
    }
}

/// What was answered, with the work that is left listed.
fn told_of<P: Program, B: BoardBrand<P>>(
    alloc: Global,
    acted: ActAnswer<P, B>,
) -> Result<Told<Work<P, B>>, AllocError> {
    match acted {
        ActAnswer::Over => Ok(Told::Over),
        ActAnswer::Stale => Ok(Told::Stale),
        ActAnswer::Parked => Ok(Told::Parked),
        ActAnswer::Memory(work) => Ok(Told::Memory(work)),
        ActAnswer::Next(works) => Ok(Told::Next(listed(alloc, works)?)),
        ActAnswer::Gone(works) => Ok(Told::Gone(listed(alloc, works)?)),
    }
}

impl<'p, P: Program, B: BoardBrand<P>> Desk<Work<P, B>> for BoardDesk<'p, P, B>
where
    <P::Lat as Lattice>::Event: Numbered,
{
    // By the worker whose number is that of the step, from 0 to 2 in turn.
    fn tell(&mut self, alloc: Global, work: Work<P, B>) -> Result<Told<Work<P, B>>, AllocError> {
        let worker = self.board.noted().len() % 3;
        let acted = match work {
            Work::Stretch(ticket) => {
                told_ticket(alloc, self.program, &mut self.board, worker, ticket)
            }
            Work::Act(asked) => self.board.act(alloc, worker, asked),
            Work::Hand(handler) => self.board.hand(alloc, worker, handler),
        };
        told_of(alloc, acted)
    }

    fn copied(&self, alloc: Global, work: &Work<P, B>) -> Result<Option<Work<P, B>>, AllocError> {
        match work {
            Work::Stretch(ticket) => Ok(Some(Work::Stretch(ticket.copy(alloc, self.program)?))),
            Work::Act(_) | Work::Hand(_) => Ok(None),
        }
    }

    fn handing(&self, number: u64) -> Result<Work<P, B>, AllocError> {
        match HandlerName::new(&TaskName::main(), number) {
            Ok(handler) => Ok(Work::Hand(handler)),
            Err(_) => Err(AllocError),
        }
    }

    fn text(&self, alloc: Global, work: &Work<P, B>) -> Result<String, AllocError> {
        match work {
            Work::Stretch(ticket) => format!(in alloc; "Stretch {}", ticket.task()),
            Work::Act(asked) => format!(in alloc; "Act {}", asked.task()),
            Work::Hand(handler) => format!(in alloc; "Hand {handler}"),
        }
    }

    fn is_over(&self) -> bool {
        self.board.over().is_some()
    }

    fn write_over(&self, text: &mut String) -> Result<(), AllocError> {
        write_outcome(text, self.board.over())
    }

    fn write_machine(&self, alloc: Global, text: &mut String) -> Result<(), AllocError> {
        write_machine(text, alloc, &self.board)
    }
}

//! Where a lone worker works.
//!
//! There is no lock, and nobody else takes work. It takes up what came last, and a task that its step made
//! before the one that made it: so it finds in the processor's caches what it needs, and less work
//! waits, with the memory that it holds.

ghost use Rattle.std.specs.Prelude.{IfSome, true};
ghost use Rattle.lvish_run.specs.Crew.{MayLeave};

use crate::gate::Gate;
use crate::leave::Leave;
use crate::naming::Staff;
use crate::pace::Pace;
use crate::queue::Queue;
use crate::rank::Rank;
use crate::runnable::Runnable;
use crate::staffed::Staffed;
use crate::worker::Worker;
use lvish_board::{Asked, BoardBrand, Ticket, Work};
use lvish_calculus::Program;
use lvish_lattice::Lattice;
use lvish_names::HandlerName;
use std::alloc::AllocError;
use std::sync::Wait;

/// The place of a lone worker: the board is its own.
#[derive(Drop)]
pub struct OwnSite<'p, 'g, P: Program, B: BoardBrand<P> + Staff, G: Gate> {
    pub board: Staffed<'p, P, B>,
    pub gate: &'g G,
    pub pace: Pace,
    pub rank: Rank<B>,
    pub worker: Worker<'p, P, B>,
}

impl<'p, 'g, P: Runnable, B: BoardBrand<P> + Staff, G: Gate> OwnSite<'p, 'g, P, B, G> {
    /// Works turn after turn, until one says why the worker leaves.
    pub fn work<R: Wait>(&mut self, rt: &R) -> Leave
        ensures { MayLeave true result }
    {
        for _ in rt.forever() {
            if let Some(why) = self.turn() {
                return why;
            }
        }
        unreachable!()
    }

    /// One turn: why the worker leaves, if it does. All work is its own, so it never asks its gate whether to wait for
    /// more.
    #[inline(always)]
    fn turn(&mut self) -> Option<Leave>
        ensures { IfSome result (MayLeave true) }
    {
        if self.leaves() {
            return Some(Leave::Others);
        }
        match self.worker.take_up() {
            Some(Work::Stretch(ticket)) => self.run_on(ticket),
            Some(Work::Act(asked)) => self.act_again(asked),
            Some(Work::Hand(handler)) => self.hand(handler),
            None => None,
        }
    }

    /// Whether a crew pays, and there is work for it.
    #[inline(always)]
    fn leaves(&mut self) -> bool {
        match self.pace.pays() {
            Some(pays) => pays && !self.worker.queue.is_empty(),
            None => false,
        }
    }

    /// Runs a task's local statements, and takes what it then asks for to the board.
    #[inline(always)]
    fn run_on(&mut self, ticket: Ticket<P, B>) -> Option<Leave>
        ensures { IfSome result (MayLeave true) }
    {
        self.gate.enter(self.rank.number(), ticket.task());
        match self.worker.stretch(ticket) {
            Ok(asked) => self.act(asked),
            Err(_refused) => Some(Leave::Memory),
        }
    }

    /// Takes what a woken task asks for to the board once more.
    fn act_again(&mut self, mut asked: Asked<P, B>) -> Option<Leave>
        ensures { IfSome result (MayLeave true) }
    {
        match self.worker.prepare(&mut asked) {
            Ok(()) => self.act(asked),
            Err(_refused) => Some(Leave::Memory),
        }
    }

    /// Takes what a task asks for to the board.
    #[inline(always)]
    fn act(&mut self, asked: Asked<P, B>) -> Option<Leave>
        ensures { IfSome result (MayLeave true) }
    {
        self.pace.count(self.worker.statements(&asked));
        let mut slot = Some(asked);
        let worker = &mut self.worker;
        let came = self
            .board
            .act(worker.alloc, &self.rank, &mut slot, &mut worker.step_work);
        worker.keep(slot);
        worker.go_by(came)
    }

    /// Takes a handler to the board.
    #[inline(always)]
    fn hand(&mut self, handler: HandlerName<<P::Lat as Lattice>::Event>) -> Option<Leave>
        ensures { IfSome result (MayLeave true) }
    {
        let worker = &mut self.worker;
        let came = self
            .board
            .hand(worker.alloc, &self.rank, handler, &mut worker.step_work);
        worker.go_by(came)
    }

    /// The board, and the work that waits.
    ///
    /// # Errors
    ///
    /// Where there is no room for it.
    pub fn into_parts(self) -> Result<(Staffed<'p, P, B>, Queue<P, B>), AllocError> {
        let OwnSite {
            board,
            gate: _,
            pace: _,
            rank: _,
            worker,
        } = self;
        let queue = worker.into_queue()?;
        Ok((board, queue))
    }
}

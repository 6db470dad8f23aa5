//! Where a worker of a crew works.
//!
//! The board stands behind a lock. Each worker takes up its own work first, what came last before the rest,
//! and puts on its deque, where the others can take it, only what they ask for: the task that came
//! first, since most may come of it. Where the gate may hold it, it puts all on its deque.

ghost use Rattle.std.specs.Prelude.{IfSome, true};
ghost use Rattle.lvish_run.specs.Crew.{MayLeave};

use crate::gate::Gate;
use crate::hall::Hall;
use crate::leave::Leave;
use crate::naming::Staff;
use crate::pace::Pace;
use crate::queue::Queue;
use crate::rank::Rank;
use crate::runnable::Runnable;
use crate::seek::find;
use crate::worker::Worker;
use lvish_board::{Asked, BoardBrand, Ticket, Work};
use lvish_calculus::Program;
use lvish_deal::Seat;
use lvish_lattice::Lattice;
use lvish_names::HandlerName;
use std::alloc::AllocError;
use std::sync::Wait;

/// The place of one worker of a crew.
#[derive(Drop)]
pub struct SharedSite<'r, 'h, 'p, P: Program, B: BoardBrand<P> + Staff, R: Wait, G: Gate> {
    pub rt: &'r R,
    pub hall: &'h Hall<'p, P, B>,
    pub gate: &'r G,
    pub seat: Seat<Work<P, B>>,
    pub pace: Pace,
    // what it found when it was about to sleep
    pub found: Option<Work<P, B>>,
    pub rank: Rank<B>,
    pub worker: Worker<'p, P, B>,
}

impl<'r, 'h, 'p, P: Runnable, B: BoardBrand<P> + Staff, R: Wait, G: Gate> SharedSite<
    'r,
    'h,
    'p,
    P,
    B,
    R,
    G,
> {
    /// Works turn after turn, until one says why the worker leaves.
    pub fn work(&mut self) -> Leave
        ensures { MayLeave G.patient result }
    {
        for _ in self.rt.forever() {
            if let Some(why) = self.turn() {
                return why;
            }
        }
        unreachable!()
    }

    /// One turn: why the worker leaves, if it does.
    #[inline(always)]
    fn turn(&mut self) -> Option<Leave>
        ensures { IfSome result (MayLeave G.patient) }
    {
        if self.leaves() {
            return Some(Leave::Others);
        }
        match self.take_up() {
            Some(Work::Stretch(ticket)) => self.run_on(ticket),
            Some(Work::Act(asked)) => self.act_again(asked),
            Some(Work::Hand(handler)) => self.hand(handler),
            None => self.idle(),
        }
    }

    /// Whether another worker has left, or one does better alone.
    #[inline(always)]
    fn leaves(&mut self) -> bool {
        if self.hall.is_left() {
            return true;
        }
        match self.pace.pays() {
            Some(pays) => !pays,
            None => false,
        }
    }

    /// Takes up its own work, else what it found or finds on the deques.
    #[inline(always)]
    fn take_up(&mut self) -> Option<Work<P, B>> {
        match self.worker.take_up() {
            Some(work) => Some(work),
            None => self.take_found(),
        }
    }

    /// Takes up what it found when it was about to sleep, else what it finds on the deques.
    fn take_found(&mut self) -> Option<Work<P, B>> {
        match self.found.take() {
            Some(work) => Some(work),
            None => find(&mut self.seat),
        }
    }

    /// A turn without work: it is stopped, or sleeps until there is some.
    fn idle(&mut self) -> Option<Leave>
        ensures { IfSome result (MayLeave G.patient) }
    {
        if !self.gate.idle(self.rank.number()) {
            return Some(Leave::Stopped);
        }
        self.found = self.hall.sleep(self.rt, &mut self.seat);
        None
    }

    /// Runs a task's local statements, and takes what it then asks for to the board.
    #[inline(always)]
    fn run_on(&mut self, ticket: Ticket<P, B>) -> Option<Leave>
        ensures { IfSome result (MayLeave true) }
    {
        if self.share_as_asked().is_err() {
            return Some(Leave::Memory);
        }
        self.gate.enter(self.rank.number(), ticket.task());
        match self.worker.stretch(ticket) {
            Ok(asked) => self.act(asked),
            Err(_refused) => Some(Leave::Memory),
        }
    }

    /// Shares what others ask for, or all where the gate may hold this worker.
    ///
    /// # Errors
    ///
    /// Where there is no room for it on the deque.
    #[inline(always)]
    fn share_as_asked(&mut self) -> Result<(), AllocError> {
        if self.gate.holds() {
            self.share_all()
        } else if self.hall.is_asked() {
            self.share()
        } else {
            Ok(())
        }
    }

    /// Puts all that waits on its deque.
    ///
    /// # Errors
    ///
    /// Where there is no room for it.
    #[inline(never)]
    fn share_all(&mut self) -> Result<(), AllocError> {
        for _ in self.rt.forever() {
            if self.worker.queue.is_empty() {
                return Ok(());
            }
            self.share()?;
        }
        unreachable!()
    }

    /// Puts a piece on its deque, and tells a worker that asks for one.
    ///
    /// # Errors
    ///
    /// Where there is no room for it.
    #[inline(never)]
    fn share(&mut self) -> Result<(), AllocError> {
        let worker = &mut self.worker;
        let Some(work) = worker.queue.pop_oldest() else {
            return Ok(());
        };
        if self.seat.push(work).is_err() {
            return Err(AllocError);
        }
        self.hall.serve(self.rt);
        Ok(())
    }

    /// Takes what a woken task asks for to the board once more.
    fn act_again(&mut self, mut asked: Asked<P, B>) -> Option<Leave>
        ensures { IfSome result (MayLeave true) }
    {
        match self.worker.prepare(&mut asked) {
            Ok(()) => self.act(asked),
            Err(_refused) => Some(Leave::Memory),
        }
    }

    /// Takes what a task asks for to the board.
    #[inline(always)]
    fn act(&mut self, asked: Asked<P, B>) -> Option<Leave>
        ensures { IfSome result (MayLeave true) }
    {
        self.pace.count(self.worker.statements(&asked));
        let mut slot = Some(asked);
        let worker = &mut self.worker;
        let mut board = self.hall.take(self.rt);
        let came = board.act(worker.alloc, &self.rank, &mut slot, &mut worker.step_work);
        drop(board);
        // (what is left of the task is dropped or kept when the board is free again)
        worker.keep(slot);
        worker.go_by(came)
    }

    /// Takes a handler to the board.
    #[inline(always)]
    fn hand(&mut self, handler: HandlerName<<P::Lat as Lattice>::Event>) -> Option<Leave>
        ensures { IfSome result (MayLeave true) }
    {
        let worker = &mut self.worker;
        let mut board = self.hall.take(self.rt);
        let came = board.hand(worker.alloc, &self.rank, handler, &mut worker.step_work);
        drop(board);
        worker.go_by(came)
    }

    /// Leaves behind what waits for this worker.
    ///
    /// # Errors
    ///
    /// Where there is no room for it.
    pub fn leave_behind(self) -> Result<(), AllocError> {
        let SharedSite {
            rt,
            hall,
            gate: _,
            mut seat,
            pace: _,
            found,
            rank: _,
            worker,
        } = self;
        let mut queue = worker.into_queue()?;
        if let Some(work) = found {
            queue.push(work)?;
        }
        let mut rest = hall.rest.lock(rt);
        leave_all(rt, &mut seat, &mut queue, &mut rest)
    }
}

/// Leaves all that is on its own deque and in the queue in this list.
fn leave_all<P: Program, B: BoardBrand<P>, R: Wait>(
    rt: &R,
    seat: &mut Seat<Work<P, B>>,
    queue: &mut Queue<P, B>,
    rest: &mut Vec<Work<P, B>>,
) -> Result<(), AllocError> {
    for _ in rt.forever() {
        let work = match seat.pop() {
            Some(work) => Some(work),
            None => queue.pop(),
        };
        match work {
            Some(work) => rest.push(work)?,
            None => return Ok(()),
        }
    }
    unreachable!()
}

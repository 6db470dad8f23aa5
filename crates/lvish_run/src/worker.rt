//! What a worker does at each of its places: it takes up work, runs tasks, and goes on by what the board answers.
//!
//! Its functions are inlined into those of its place, since what passes between them is large, and would be moved at each
//! call.

ghost use Rattle.std.specs.Prelude.{◌≡◌, IfSome, true};
ghost use Rattle.lvish_run.specs.Crew.{MayLeave};

use crate::leave::Leave;
use crate::queue::{Queue, leaves_more};
use crate::runnable::Runnable;
use lvish_board::{ActKind, Asked, BoardBrand, Step, StepWork, Ticket, Work, stretch_with};
use lvish_calculus::Program;
use std::alloc::{AllocError, Global};

/// The work of one worker: what waits for it, and what its last step left.
pub struct Worker<'p, P: Program, B: BoardBrand<P>> {
    pub alloc: Global,
    program: &'p P,
    pub queue: Queue<P, B>,
    pub step_work: StepWork<P, B>,
    ghost same: { program.now ≡ B.program },
}

// Written out, so that it is proved once, and not at each exit of a function that owns one.
impl<'p, P: Program, B: BoardBrand<P>> Drop for Worker<'p, P, B> {
    fn drop(self) {
        let Worker {
            alloc: _,
            program: _,
            queue: _,
            step_work: _,
        } = self;
    }
}

impl<'p, P: Runnable, B: BoardBrand<P>> Worker<'p, P, B> {
    /// A worker with the work that waits for it.
    pub fn new(alloc: Global, program: &'p P, queue: Queue<P, B>) -> Worker<'p, P, B>
        requires { program.now ≡ B.program }
    {
        Worker {
            alloc,
            program,
            queue,
            step_work: StepWork::none(alloc, Step::Act(0)),
        }
    }

    /// Takes up the task of its last step, where it goes on, else what came last of the work that waits.
    #[inline(always)]
    pub fn take_up(&mut self) -> Option<Work<P, B>> {
        match self.step_work.own.take() {
            Some(ticket) => Some(Work::Stretch(ticket)),
            None => self.queue.pop(),
        }
    }

    /// Runs a task's local statements: what it then asks for.
    ///
    /// # Errors
    ///
    /// Where there is no room for it.
    #[inline(always)]
    pub fn stretch(&mut self, ticket: Ticket<P, B>) -> Result<Asked<P, B>, AllocError> {
        match stretch_with(
            self.alloc,
            self.program,
            ticket,
            self.step_work.spare.take(),
        ) {
            Ok(asked) => Ok(asked),
            Err(_ticket) => Err(AllocError),
        }
    }

    /// Makes what a woken task asks for ready for the board once more.
    ///
    /// # Errors
    ///
    /// Where there is no room for it.
    pub fn prepare(&mut self, asked: &mut Asked<P, B>) -> Result<(), AllocError> {
        asked.prepare(self.alloc, self.program, self.step_work.spare.take())
    }

    /// How many local statements a task has run before what it asks for, where that is known.
    #[inline(always)]
    pub fn statements(&self, asked: &Asked<P, B>) -> usize {
        match asked.at() {
            Some(at) => self.program.statements(at),
            None => 0,
        }
    }

    /// Keeps what is left of a task as spare memory.
    #[inline(always)]
    pub fn keep(&mut self, left: Option<Asked<P, B>>) {
        if let Some(asked) = left {
            self.step_work.spare = Some(asked.into_from());
        }
    }

    /// Goes on by the board's answer, where the work beside the task that goes on waits: why the worker leaves, if it
    /// does.
    #[inline(always)]
    pub fn go_by(&mut self, came: ActKind) -> Option<Leave>
        ensures { IfSome result (MayLeave true) }
    {
        match came {
            ActKind::Over => Some(Leave::Over),
            ActKind::Memory => Some(Leave::Memory),
            ActKind::Next | ActKind::Gone => {
                if leaves_more(&self.step_work) && self.queue.leave(&mut self.step_work).is_err() {
                    return Some(Leave::Memory);
                }
                None
            }
            ActKind::Parked | ActKind::Stale => None,
        }
    }

    /// The work that waits, of which the task that goes on is the first.
    ///
    /// # Errors
    ///
    /// Where there is no room for it.
    pub fn into_queue(self) -> Result<Queue<P, B>, AllocError> {
        let Worker {
            alloc: _,
            program: _,
            mut queue,
            mut step_work,
        } = self;
        if let Some(own) = step_work.own.take() {
            queue.push(Work::Stretch(own))?;
        }
        Ok(queue)
    }
}

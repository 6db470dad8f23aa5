//! A board whose steps are all of the workers of its run.

ghost use Rattle.std.specs.Prelude.{◌≡◌, ◌≢◌, IfOk, IsSome, true};

use crate::closing::report_of;
use crate::fault::RunFault;
use crate::naming::Staff;
use crate::rank::Rank;
use lvish_board::{ActKind, Asked, Board, BoardBrand, StepWork};
use lvish_calculus::{Meaning, Program};
use lvish_lattice::Lattice;
use lvish_names::HandlerName;
use lvish_report::Report;
use std::alloc::Global;
use std::marker::Model;

/// A board at which the workers of a run work, and nobody else.
pub struct Staffed<'p, P: Program, B: BoardBrand<P> + Staff> {
    board: Board<'p, P, B>,
}

// Written out, so that it is proved once, and not at each exit of a function that owns one.
impl<'p, P: Program, B: BoardBrand<P> + Staff> Drop for Staffed<'p, P, B> {
    fn drop(self) {
        let Staffed { board: _ } = self;
    }
}

impl<'p, P: Program, B: BoardBrand<P> + Staff> Model for Staffed<'p, P, B> {
    ghost use Rattle.std.specs.Prelude.{◌<◌};
    ghost use Rattle.std.specs.List.{AllByRecursion};
    ghost use Rattle.lvish_board.specs.Board.{Standing};

    ghost Value = { Standing P P.Lat P.Lat.Event P.Local };

    ghost view = { λ s. s.board };

    // Its steps are all of these workers.
    ghost invariant = { λ s. AllByRecursion (λ e. e.worker < B.workers) s.board.trace };
}

impl<'p, P: Program, B: BoardBrand<P> + Staff> Staffed<'p, P, B> {
    ghost use Rattle.std.specs.Prelude.{[]};
    ghost use Rattle.lvish_run.specs.Alike.{IsTold};
    ghost use Rattle.lvish_run.specs.Crew.{MakesBy};

    /// A board at which nobody has worked.
    pub fn new(board: Board<'p, P, B>) -> Staffed<'p, P, B>
        requires { board.trace ≡ [] }
        ensures { result ≡ board.entry }
    {
        Staffed { board }
    }

    /// Whether the board is over.
    #[inline(always)]
    pub fn is_over(&self) -> bool
        ensures { result ≡ true → IsSome self.now.over }
    {
        self.board.over().is_some()
    }

    /// Takes what a task asks for to the board, by this worker; `Over` also where the step was the last.
    #[inline(always)]
    pub fn act(
        &mut self,
        alloc: Global,
        worker: &Rank<B>,
        asked: &mut Option<Asked<P, B>>,
        step_work: &mut StepWork<P, B>,
    ) -> ActKind
        requires there { IsSome asked.old }
        // A step that it makes is the worker's.
        ensures { MakesBy worker.now.number self.old.trace self.new.trace }
    {
        let number = worker.number();
        let came = self.board.act_into(alloc, number, asked, step_work);
        self.or_over(came)
    }

    /// Takes a handler to the board, by this worker; `Over` also where the handing was the last step.
    #[inline(always)]
    pub fn hand(
        &mut self,
        alloc: Global,
        worker: &Rank<B>,
        handler: HandlerName<<P::Lat as Lattice>::Event>,
        step_work: &mut StepWork<P, B>,
    ) -> ActKind
        // A handing that it makes is the worker's.
        ensures { MakesBy worker.now.number self.old.trace self.new.trace }
    {
        let mut slot = Some(handler);
        let number = worker.number();
        let came = self.board.hand_into(alloc, number, &mut slot, step_work);
        self.or_over(came)
    }

    /// What came of work, or that the board is over.
    #[inline(always)]
    fn or_over(&self, came: ActKind) -> ActKind {
        if self.is_over() { ActKind::Over } else { came }
    }

    /// The report of a board that is over, by all its workers.
    ///
    /// # Errors
    ///
    /// `Memory` where a growth was refused.
    pub fn report(
        self,
        alloc: Global,
        workers: usize,
    ) -> Result<Report<P::Lat, <P::Lat as Lattice>::Event>, RunFault>
        requires over { IsSome self.over }
        requires all { workers ≡ B.workers }
        ensures told { IfOk result (λ r. IsTold (⟦<P as Meaning>⟧.machine B.program) (P.functions B.program).variables workers B.budget r) }
        ensures whole { result ≢ Err RunFault.Mixed }
        ensures not_stopped { result ≢ Err RunFault.Stopped }
        ensures all_there { result ≢ Err RunFault.NoThread }
    {
        let Staffed { board } = self;
        report_of(alloc, board, workers)
    }
}

//! What one worker does with one piece of work, and with the work that its step leaves.

ghost use Rattle.std.specs.Prelude.{◌≡◌, false, None, Some, IfOk};
ghost use Rattle.lvish_calculus.specs.declared.label.Label.TheVariants.{Hand};
ghost use Rattle.lvish_board.specs.Board.{IsBoardSound, IsCurrent};
ghost use Rattle.lvish_board.specs.Listed.{HasNext};
ghost use Rattle.lvish_run.specs.Agenda.{open_in, IsBeside, IsFor};
ghost use Rattle.lvish_run.specs.Walk.{IsTried, IsTriedHand, IsActed, IsHandTurn};

use crate::agenda::Agenda;
use crate::opening::open_all;
use lvish_board::{ActKind, Asked, Board, BoardBrand, Step, StepWork};
use lvish_calculus::laws::lawful;
use lvish_calculus::{Meaning, Program};
use lvish_core::CoreMeaning;
use lvish_core::laws::hands_one_event;
use lvish_lattice::Lattice;
use lvish_names::HandlerName;
use lvish_picture::laws::handed_next;
use std::alloc::{AllocError, Global};

/// What every board keeps.
pub(crate) fn is_sound<P: Program, B: BoardBrand<P>>(board: &Board<'_, P, B>)
    ensures { IsBoardSound (⟦<P as Meaning>⟧.machine B.program) B.program B.budget board.now }
{
    board.over();
}

/// Does what the task asks for, and takes the work that its step leaves into the agenda. Answers
/// whether there was a step.
pub(crate) fn act<P: Program, B: BoardBrand<P>>(
    alloc: Global,
    program: &P,
    board: &mut Board<'_, P, B>,
    agenda: &mut Agenda<P, B>,
    asked: Asked<P, B>,
) -> Result<bool, AllocError>
    requires program { program.now ≡ B.program }
    requires running { board.old.over ≡ None }
    requires current { IsCurrent (⟦<P as Meaning>⟧.machine B.program) board.old.core asked }
    requires beside { IsBeside (⟦<P as Meaning>⟧.machine B.program) board.old (Some asked.task) None (open_in P.Lat.Event.cmp agenda.old) }
    ensures acted { IfOk result (λ made. IsActed (⟦<P as Meaning>⟧.machine B.program) board.old asked.task made board.new) }
    ensures agenda { IfOk result (λ _. IsFor P.Lat.Event.cmp (⟦<P as Meaning>⟧.machine B.program) board.new agenda.new) }
    ensures stays { IfOk result (λ made. made ≡ false → agenda.new ≡ agenda.old) }
{
    lawful::<P>();
    handed_next::<P>();
    hands_one_event::<P>();
    is_sound(board);
    match take_act(alloc, board, asked)? {
        Some(step_work) => {
            is_sound(board);
            open_all(alloc, program, agenda, step_work)?;
            Ok(true)
        }
        None => Ok(false),
    }
}

/// Takes what the task asks for to the board. Answers the work that its step leaves; `None` where
/// there was no step.
fn take_act<P: Program, B: BoardBrand<P>>(
    alloc: Global,
    board: &mut Board<'_, P, B>,
    asked: Asked<P, B>,
) -> Result<Option<StepWork<P, B>>, AllocError>
    requires current { IsCurrent (⟦<P as Meaning>⟧.machine B.program) board.old.core asked }
    ensures { IfOk result (λ o. IsTried P.Lat.Event.cmp (⟦<P as Meaning>⟧.machine B.program) board.old asked o board.new) }
{
    is_sound(board);
    let mut slot = Some(asked);
    let mut step_work = StepWork::none(alloc, Step::Act(0));
    match board.act_into(alloc, 0, &mut slot, &mut step_work) {
        ActKind::Next => Ok(Some(step_work)),
        ActKind::Gone => Ok(Some(step_work)),
        ActKind::Parked => Ok(None),
        ActKind::Over => Ok(None),
        ActKind::Stale => unreachable!(),
        ActKind::Memory => Err(AllocError),
    }
}

/// Hands the handler what comes next for it, and takes the work that this leaves into the agenda.
/// Answers whether there was a step.
pub(crate) fn hand<P: Program, B: BoardBrand<P>>(
    alloc: Global,
    program: &P,
    board: &mut Board<'_, P, B>,
    agenda: &mut Agenda<P, B>,
    handler: HandlerName<<P::Lat as Lattice>::Event>,
) -> Result<bool, AllocError>
    requires program { program.now ≡ B.program }
    requires running { board.old.over ≡ None }
    requires next { HasNext (⟦<P as Meaning>⟧.machine B.program) board.old.core handler }
    requires beside { IsBeside (⟦<P as Meaning>⟧.machine B.program) board.old None (Some handler) (open_in P.Lat.Event.cmp agenda.old) }
    ensures handed { IfOk result (λ made. (e : P.Lat.Event) → ⟦<P as CoreMeaning>⟧.is_next board.old.core handler e → IsHandTurn board.old (Hand handler e) made board.new) }
    ensures agenda { IfOk result (λ _. IsFor P.Lat.Event.cmp (⟦<P as Meaning>⟧.machine B.program) board.new agenda.new) }
{
    lawful::<P>();
    handed_next::<P>();
    hands_one_event::<P>();
    is_sound(board);
    match take_hand(alloc, board, handler)? {
        Some(left) => {
            is_sound(board);
            open_all(alloc, program, agenda, left)?;
            Ok(true)
        }
        None => Ok(false),
    }
}

/// Takes the handler to the board. Answers the work that the handing leaves; `None` where there was
/// no handing.
fn take_hand<P: Program, B: BoardBrand<P>>(
    alloc: Global,
    board: &mut Board<'_, P, B>,
    handler: HandlerName<<P::Lat as Lattice>::Event>,
) -> Result<Option<StepWork<P, B>>, AllocError>
    requires running { board.old.over ≡ None }
    requires next { HasNext (⟦<P as Meaning>⟧.machine B.program) board.old.core handler }
    ensures { IfOk result (λ o. IsTriedHand P.Lat.Event.cmp (⟦<P as Meaning>⟧.machine B.program) board.old handler o board.new) }
{
    hands_one_event::<P>();
    is_sound(board);
    let mut slot = Some(handler);
    let mut step_work = StepWork::none(alloc, Step::Hand(0));
    match board.hand_into(alloc, 0, &mut slot, &mut step_work) {
        ActKind::Next => Ok(Some(step_work)),
        ActKind::Over => Ok(None),
        ActKind::Memory => Err(AllocError),
        ActKind::Gone => unreachable!(),
        ActKind::Parked => unreachable!(),
        ActKind::Stale => unreachable!(),
    }
}

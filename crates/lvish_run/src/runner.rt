//! Runs on one thread, step by step as picks say.

ghost use Rattle.std.specs.Prelude.{◌≡◌, ◌≤◌, ◌%◌, IfOk, MatchOption, length, [], slice_get, true, None, Some};
ghost use Rattle.std.specs.Option.{unwrap_or};
ghost use Rattle.lvish_calculus.specs.Calculus.{Running, start};
ghost use Rattle.lvish_calculus.specs.Handing.{IsWellHanded};
ghost use Rattle.lvish_trace.specs.Traced.{labels_of};
ghost use Rattle.lvish_board.specs.Board.{IsOpened};
ghost use Rattle.lvish_run.specs.Agenda.{open_in, NoTask, IsBeside, IsFor};
ghost use Rattle.lvish_run.specs.Honest.{IsHonest};
ghost use Rattle.lvish_run.specs.Picked.{IsPicked};
ghost use Rattle.lvish_run.specs.Alike.{IsAlike};
ghost use Rattle.lvish_run.specs.Least.{IsLeast, IsClosedEnd};
ghost use Rattle.lvish_run.specs.Walk.{IsStuck, IsDrawn, IsFirstHandler, IsTurn, IsWalked};

use crate::account::outcome_of;
use crate::agenda::Agenda;
use crate::closing::report_over;
use crate::limits::MOST_PROGRAM_STEPS;
use crate::naming::{Naming, Of};
use crate::opening::open_one;
use crate::picks::pick_at;
use crate::runnable::Runnable;
use crate::turn::{act, hand, is_sound};
use lvish_board::{Board, BoardBrand, Stand};
use lvish_calculus::laws::lawful;
use lvish_calculus::{Label, Meaning, Program};
use lvish_core::laws::{hands_one_event, takes_core_runs, takes_something};
use lvish_history::Opened;
use lvish_lattice::Lattice;
use lvish_names::HandlerName;
use lvish_report::{Counts, Report};
use std::alloc::{AllocError, Global};
use std::marker::Brand;

/// The label whose number is the pick modulo their count, `None` where there are no labels.
fn choose<E: Drop>(mut labels: Vec<Label<E>>, pick: u64) -> Option<Label<E>>
    ensures { MatchOption result (labels.items ≡ []) (λ l. slice_get labels.items (pick % length labels.items) ≡ Some l) }
{
    if labels.is_empty() {
        return None;
    }
    let place = (pick % labels.len() as u64) as usize;
    Some(labels.swap_remove(place))
}

/// The label that the pick names, `None` where nothing is enabled.
fn named<P: Program, B: BoardBrand<P>>(
    alloc: Global,
    board: &Board<'_, P, B>,
    pick: u64,
) -> Result<Option<Label<<P::Lat as Lattice>::Event>>, AllocError>
    ensures { IfOk result (λ o. MatchOption o (IsStuck (⟦<P as Meaning>⟧.machine B.program) board.now.core) (λ l. IsDrawn P.Lat.Event.cmp (⟦<P as Meaning>⟧.machine B.program) board.now.core pick l)) }
{
    is_sound(board);
    let labels = board.core().labels(alloc)?;
    Ok(choose(labels, pick))
}

/// Makes the step of the label that the pick names. Answers whether there was one.
fn take_named<P: Program, B: BoardBrand<P>>(
    alloc: Global,
    program: &P,
    board: &mut Board<'_, P, B>,
    agenda: &mut Agenda<P, B>,
    pick: u64,
) -> Result<bool, AllocError>
    requires program { program.now ≡ B.program }
    requires running { board.old.over ≡ None }
    requires agenda { IsBeside (⟦<P as Meaning>⟧.machine B.program) board.old None None (open_in P.Lat.Event.cmp agenda.old) }
    ensures turn { IfOk result (λ made. IsTurn P.Lat.Event.cmp (⟦<P as Meaning>⟧.machine B.program) (Some pick) board.old made board.new) }
    ensures agenda { IfOk result (λ made. made ≡ true → IsFor P.Lat.Event.cmp (⟦<P as Meaning>⟧.machine B.program) board.new agenda.new) }
{
    is_sound(board);
    match named(alloc, board, pick)? {
        Some(Label::Act(name)) => {
            let Some(asked) = agenda.take_task(&name) else {
                unreachable!()
            };
            act(alloc, program, board, agenda, asked)
        }
        Some(Label::Hand(handler, _event)) => hand(alloc, program, board, agenda, handler),
        None => Ok(false),
    }
}

/// Makes the first step that can be made. Answers whether there was one.
///
/// Open tasks that are blocked are parked on the way, and are open again once a step wakes them.
fn take_first<P: Program, B: BoardBrand<P>>(
    alloc: Global,
    program: &P,
    board: &mut Board<'_, P, B>,
    agenda: &mut Agenda<P, B>,
) -> Result<bool, AllocError>
    requires program { program.now ≡ B.program }
    requires running { board.old.over ≡ None }
    requires agenda { IsBeside (⟦<P as Meaning>⟧.machine B.program) board.old None None (open_in P.Lat.Event.cmp agenda.old) }
    ensures turn { IfOk result (λ made. IsTurn P.Lat.Event.cmp (⟦<P as Meaning>⟧.machine B.program) None board.old made board.new) }
    ensures agenda { IfOk result (λ made. made ≡ true → IsFor P.Lat.Event.cmp (⟦<P as Meaning>⟧.machine B.program) board.new agenda.new) }
{
    is_sound(board);
    while let Some(asked) = agenda.pop_task() {
        if act(alloc, program, board, agenda, asked)? {
            return Ok(true);
        }
        if board.over().is_some() {
            return Ok(false);
        }
    }
    take_first_handing(alloc, program, board, agenda)
}

/// Makes the first handing, where no task is open. Answers whether there was one.
fn take_first_handing<P: Program, B: BoardBrand<P>>(
    alloc: Global,
    program: &P,
    board: &mut Board<'_, P, B>,
    agenda: &mut Agenda<P, B>,
) -> Result<bool, AllocError>
    requires program { program.now ≡ B.program }
    requires running { board.old.over ≡ None }
    requires agenda { IsBeside (⟦<P as Meaning>⟧.machine B.program) board.old None None (open_in P.Lat.Event.cmp agenda.old) }
    requires no_task { NoTask (open_in P.Lat.Event.cmp agenda.old) }
    ensures turn { IfOk result (λ made. IsTurn P.Lat.Event.cmp (⟦<P as Meaning>⟧.machine B.program) None board.old made board.new) }
    ensures agenda { IfOk result (λ made. made ≡ true → IsFor P.Lat.Event.cmp (⟦<P as Meaning>⟧.machine B.program) board.new agenda.new) }
{
    match first_handler(board, agenda) {
        Some(handler) => hand(alloc, program, board, agenda, handler),
        None => Ok(false),
    }
}

/// The first handler with something left for it, where no task is open; `None` where there is none.
fn first_handler<P: Program, B: BoardBrand<P>>(
    board: &Board<'_, P, B>,
    agenda: &mut Agenda<P, B>,
) -> Option<HandlerName<<P::Lat as Lattice>::Event>>
    requires running { board.now.over ≡ None }
    requires agenda { IsBeside (⟦<P as Meaning>⟧.machine B.program) board.now None None (open_in P.Lat.Event.cmp agenda.old) }
    requires no_task { NoTask (open_in P.Lat.Event.cmp agenda.old) }
    ensures { MatchOption result (IsStuck (⟦<P as Meaning>⟧.machine B.program) board.now.core) (λ h. IsFirstHandler P.Lat.Event.cmp (⟦<P as Meaning>⟧.machine B.program) board.now h agenda.new) }
{
    hands_one_event::<P>();
    is_sound(board);
    while let Some(handler) = agenda.pop_handler() {
        if let Some(_event) = board.core().next(&handler) {
            return Some(handler);
        }
    }
    None
}

/// Makes the step that the pick names, or the first where there is none. Answers whether there was
/// one.
fn turn<P: Program, B: BoardBrand<P>>(
    alloc: Global,
    program: &P,
    board: &mut Board<'_, P, B>,
    agenda: &mut Agenda<P, B>,
    pick: Option<u64>,
) -> Result<bool, AllocError>
    requires program { program.now ≡ B.program }
    requires agenda { IsFor P.Lat.Event.cmp (⟦<P as Meaning>⟧.machine B.program) board.old agenda.old }
    ensures turn { IfOk result (λ made. IsTurn P.Lat.Event.cmp (⟦<P as Meaning>⟧.machine B.program) pick board.old made board.new) }
    ensures agenda { IfOk result (λ made. made ≡ true → IsFor P.Lat.Event.cmp (⟦<P as Meaning>⟧.machine B.program) board.new agenda.new) }
{
    if board.over().is_some() {
        return Ok(false);
    }
    match pick {
        Some(pick) => take_named(alloc, program, board, agenda, pick),
        None => take_first(alloc, program, board, agenda),
    }
}

/// Makes steps from the start until none can be made or the budget is used up.
fn walk<P: Program, B: BoardBrand<P>>(
    alloc: Global,
    program: &P,
    board: &mut Board<'_, P, B>,
    agenda: &mut Agenda<P, B>,
    picks: &[u64],
    budget: u64,
) -> Result<(), AllocError>
    requires program { program.now ≡ B.program }
    requires budget { budget ≡ B.budget }
    requires board { IsOpened (⟦<P as Meaning>⟧.machine B.program) B.program board.old }
    requires agenda { IsFor P.Lat.Event.cmp (⟦<P as Meaning>⟧.machine B.program) board.old agenda.old }
    ensures { IfOk result (λ _. IsWalked P.Lat.Event.cmp (⟦<P as Meaning>⟧.machine B.program) B.program picks.now B.budget board.new.core board.new.trace) }
{
    takes_core_runs::<P>();
    is_sound(board);
    for k in 0..budget {
        let made = turn(alloc, program, board, agenda, pick_at(picks, k as usize))?;
        is_sound(board);
        if !made {
            return Ok(());
        }
    }
    Ok(())
}

/// A board at the start of a run, and the agenda beside it.
fn opened<'p, P: Program, B: BoardBrand<P>>(
    alloc: Global,
    program: &'p P,
    budget: u64,
    history: Opened<Stand<P>>,
) -> Result<(Board<'p, P, B>, Agenda<P, B>), AllocError>
    requires program { program.now ≡ B.program }
    requires budget { budget ≡ B.budget }
    requires small { budget ≤ MOST_PROGRAM_STEPS }
    requires history { history.seen.book ≡ B.book }
    ensures board { IfOk result (λ r. IsOpened (⟦<P as Meaning>⟧.machine B.program) B.program r.0) }
    ensures agenda { IfOk result (λ r. IsFor P.Lat.Event.cmp (⟦<P as Meaning>⟧.machine B.program) r.0 r.1) }
{
    lawful::<P>();
    hands_one_event::<P>();
    let Ok((board, first)) = Board::new(alloc, program, budget, history) else {
        return Err(AllocError);
    };
    is_sound(&board);
    let mut agenda = Agenda::new(alloc);
    open_one(alloc, program, &mut agenda, first)?;
    Ok((board, agenda))
}

/// A board after the steps that can be made from the start within the budget.
fn walked<'p, P: Program, B: BoardBrand<P>>(
    alloc: Global,
    program: &'p P,
    picks: &[u64],
    budget: u64,
    history: Opened<Stand<P>>,
) -> Result<Board<'p, P, B>, AllocError>
    requires program { program.now ≡ B.program }
    requires budget { budget ≡ B.budget }
    requires small { budget ≤ MOST_PROGRAM_STEPS }
    requires history { history.seen.book ≡ B.book }
    ensures { IfOk result (λ b. IsWalked P.Lat.Event.cmp (⟦<P as Meaning>⟧.machine B.program) B.program picks.now B.budget b.core b.trace) }
{
    let (mut board, mut agenda) = opened::<P, B>(alloc, program, budget, history)?;
    walk(alloc, program, &mut board, &mut agenda, picks, budget)?;
    Ok(board)
}

/// Runs the program on one thread: at each step the enabled label whose number is the next pick
/// modulo their count, and the first enabled label when the picks are used up.
///
/// # Errors
///
/// `AllocError` where a growth was refused.
pub fn run_program_picks<P: Runnable>(
    alloc: Global,
    program: &P,
    picks: &[u64],
    budget: u64,
) -> Result<Report<P::Lat, <P::Lat as Lattice>::Event>, AllocError>
    requires { budget ≤ MOST_PROGRAM_STEPS }
    ensures honest { IfOk result (λ r. IsHonest (⟦<P as Meaning>⟧.machine program.now) (P.functions program.now).variables 1 budget r) }
    ensures picked { IfOk result (λ r. IsPicked P.Lat.Event.cmp (⟦<P as Meaning>⟧.machine program.now) picks.now [] (Running (start (⟦<P as Meaning>⟧.machine program.now))) (labels_of r.trace)) }
    // What handlers are handed in it.
    ensures handed { IfOk result (λ r. IsWellHanded (⟦<P as Meaning>⟧.machine program.now) (labels_of r.trace)) }
    // What it says of all other runs that end without an error.
    ensures alike { IfOk result (λ r. IsAlike (⟦<P as Meaning>⟧.machine program.now) (P.functions program.now).variables r) }
    // Its contents are at or below those of each model with what its run froze.
    ensures least { IfOk result (λ r. IsLeast (⟦<P as Meaning>⟧.machine program.now) r) }
    // At an end that no task leaves at a freeze of a frozen variable they are closed.
    ensures closed { IfOk result (λ r. IsClosedEnd (⟦<P as Meaning>⟧.machine program.now) r) }
{
    run_named::<P, Brand>(alloc, program, picks, budget, Opened::new())
}

/// Runs the program that the name is for.
fn run_named<P: Runnable, N: Naming<P>>(
    alloc: Global,
    program: &P,
    picks: &[u64],
    budget: u64,
    history: Opened<Stand<P>>,
) -> Result<Report<P::Lat, <P::Lat as Lattice>::Event>, AllocError>
    requires program { program.now ≡ unwrap_or N.program P.blank }
    requires budget { budget ≡ N.budget }
    requires small { budget ≤ MOST_PROGRAM_STEPS }
    requires history { history.seen.book ≡ N.book }
    ensures honest { IfOk result (λ r. IsHonest (⟦<P as Meaning>⟧.machine (unwrap_or N.program P.blank)) (P.functions (unwrap_or N.program P.blank)).variables 1 N.budget r) }
    ensures picked { IfOk result (λ r. IsPicked P.Lat.Event.cmp (⟦<P as Meaning>⟧.machine (unwrap_or N.program P.blank)) picks.now [] (Running (start (⟦<P as Meaning>⟧.machine (unwrap_or N.program P.blank)))) (labels_of r.trace)) }
    ensures handed { IfOk result (λ r. IsWellHanded (⟦<P as Meaning>⟧.machine (unwrap_or N.program P.blank)) (labels_of r.trace)) }
    ensures alike { IfOk result (λ r. IsAlike (⟦<P as Meaning>⟧.machine (unwrap_or N.program P.blank)) (P.functions (unwrap_or N.program P.blank)).variables r) }
    ensures least { IfOk result (λ r. IsLeast (⟦<P as Meaning>⟧.machine (unwrap_or N.program P.blank)) r) }
    ensures closed { IfOk result (λ r. IsClosedEnd (⟦<P as Meaning>⟧.machine (unwrap_or N.program P.blank)) r) }
{
    takes_something::<P>();
    let board = walked::<P, Of<N>>(alloc, program, picks, budget, history)?;
    let core = board.core();
    let outcome = outcome_of(alloc, core)?;
    let steps = core.steps();
    let mut by_worker = Vec::new(alloc);
    by_worker.push(steps)?;
    report_over(alloc, board, outcome, Counts::from(by_worker))
}

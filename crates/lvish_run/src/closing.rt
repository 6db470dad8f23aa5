//! The report of a board that is over.

ghost use Rattle.std.specs.Prelude.{◌≡◌, ◌≢◌, ◌⊎◌, ◌<◌, IfOk, None, Some, length};
ghost use Rattle.std.specs.List.{AllByRecursion};
ghost use Rattle.lvish_calculus.specs.Handing.{IsWellHanded};
ghost use Rattle.lvish_run.specs.Honest.{IsCountByWorker, IsHonest};
ghost use Rattle.lvish_trace.specs.Traced.{labels_of};
ghost use Rattle.lvish_board.specs.Board.{OverIs};
ghost use Rattle.lvish_run.specs.Alike.{IsAlike, IsTold};
ghost use Rattle.lvish_run.specs.Least.{IsLeast, IsClosedEnd};

use crate::account::account_of;
use crate::count_by_worker::count_by_worker;
use crate::fault::RunFault;
use crate::laws::honest_contents;
use lvish_board::{Board, BoardBrand, Outcome};
use lvish_calculus::laws::{handing_kept, same_end};
use lvish_calculus::{Meaning, Program};
use lvish_lattice::{Lattice, Plain};
use lvish_report::{Counts, Report};
use std::alloc::{AllocError, Global};

/// An equal outcome.
fn copy_of<E: Plain>(outcome: &Outcome<E>) -> Result<Outcome<E>, AllocError>
    ensures { IfOk result (λ o. o ≡ outcome.now) }
{
    match outcome {
        Outcome::Ended => Ok(Outcome::Ended),
        Outcome::Error {
            kind,
            variable,
            task,
        } => Ok(Outcome::Error {
            kind: *kind,
            variable: *variable,
            task: task.copy()?,
        }),
        Outcome::Budget => Ok(Outcome::Budget),
    }
}

/// The report of a board whose steps came out like this, by as many workers as there are counts.
pub(crate) fn report_over<P: Program, B: BoardBrand<P>>(
    alloc: Global,
    board: Board<'_, P, B>,
    outcome: Outcome<<P::Lat as Lattice>::Event>,
    by_worker: Counts,
) -> Result<Report<P::Lat, <P::Lat as Lattice>::Event>, AllocError>
    requires over { OverIs (⟦<P as Meaning>⟧.machine B.program) B.budget board (Some outcome) }
    requires counts { IsCountByWorker (length by_worker) board.trace by_worker }
    ensures told { IfOk result (λ r. IsTold (⟦<P as Meaning>⟧.machine B.program) (P.functions B.program).variables (length by_worker) B.budget r) }
    ensures trace { IfOk result (λ r. r.trace ≡ board.entry.trace) }
{
    handing_kept::<P>();
    same_end::<P>();
    honest_contents::<P>();
    let (core, noted) = board.into_parts();
    let account = account_of(alloc, core, outcome)?;
    Ok(account.report(noted.len() as u64, noted, by_worker))
}

/// The report of a board that is over, by this many workers.
///
/// # Errors
///
/// `Memory` where a growth was refused; `Mixed` where the board isn't over, or has steps of other
/// workers.
pub fn report_of<P: Program, B: BoardBrand<P>>(
    alloc: Global,
    board: Board<'_, P, B>,
    workers: usize,
) -> Result<Report<P::Lat, <P::Lat as Lattice>::Event>, RunFault>
    ensures honest { IfOk result (λ r. IsHonest (⟦<P as Meaning>⟧.machine B.program) (P.functions B.program).variables workers B.budget r) }
    // What handlers are handed in it.
    ensures handed { IfOk result (λ r. IsWellHanded (⟦<P as Meaning>⟧.machine B.program) (labels_of r.trace)) }
    // What it says of all other runs that end without an error.
    ensures alike { IfOk result (λ r. IsAlike (⟦<P as Meaning>⟧.machine B.program) (P.functions B.program).variables r) }
    // Its contents are at or below those of each model with what its run froze.
    ensures least { IfOk result (λ r. IsLeast (⟦<P as Meaning>⟧.machine B.program) r) }
    // At an end that no task leaves at a freeze of a frozen variable they are closed.
    ensures closed { IfOk result (λ r. IsClosedEnd (⟦<P as Meaning>⟧.machine B.program) r) }
    // The board isn't over, or has steps of other workers.
    ensures mixed { result ≡ Err RunFault.Mixed → (board.entry.over ≡ None) ⊎ (AllByRecursion (λ e. e.worker < workers) board.entry.trace → ⊥) }
    ensures not_stopped { result ≢ Err RunFault.Stopped }
    ensures all_there { result ≢ Err RunFault.NoThread }
{
    let (outcome, by_worker) = looked_at(alloc, &board, workers)?;
    Ok(report_over(alloc, board, outcome, by_worker)?)
}

/// How the board is over, and how many steps each of this many workers made. It borrows the board, so
/// that no way out drops one.
fn looked_at<P: Program, B: BoardBrand<P>>(
    alloc: Global,
    board: &Board<'_, P, B>,
    workers: usize,
) -> Result<(Outcome<<P::Lat as Lattice>::Event>, Counts), RunFault>
    ensures over { IfOk result (λ r. OverIs (⟦<P as Meaning>⟧.machine B.program) B.budget board.now (Some r.0)) }
    ensures workers { IfOk result (λ r. length r.1 ≡ workers) }
    ensures counts { IfOk result (λ r. IsCountByWorker (length r.1) board.now.trace r.1) }
    ensures mixed { result ≡ Err RunFault.Mixed → (board.now.over ≡ None) ⊎ (AllByRecursion (λ e. e.worker < workers) board.now.trace → ⊥) }
    ensures not_stopped { result ≢ Err RunFault.Stopped }
    ensures all_there { result ≢ Err RunFault.NoThread }
{
    let Some(over) = board.over() else {
        return Err(RunFault::Mixed);
    };
    let outcome = copy_of(over)?;
    let by_worker = count_by_worker(alloc, board.noted(), workers)?;
    Ok((outcome, by_worker))
}

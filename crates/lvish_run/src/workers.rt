//! Runs by workers: by one alone, and by a crew where that pays.

ghost use Rattle.std.specs.Prelude.{◌≡◌, ◌≢◌, ◌≤◌, ◌<◌, IfOk, IsSome, true};
ghost use Rattle.std.specs.Option.{unwrap_or};
ghost use Rattle.lvish_calculus.specs.Handing.{IsWellHanded};
ghost use Rattle.lvish_trace.specs.Traced.{labels_of};
ghost use Rattle.lvish_run.specs.Honest.{IsHonest};
ghost use Rattle.lvish_run.specs.Alike.{IsAlike, IsTold};
ghost use Rattle.lvish_run.specs.Least.{IsLeast, IsClosedEnd};

use crate::fault::RunFault;
use crate::gate::Gate;
use crate::hall::Hall;
use crate::limits::{MOST_PROGRAM_STEPS, MOST_STEPS, MOST_WORKERS};
use crate::naming::{Naming, Of, Staff};
use crate::own::OwnSite;
use crate::pace::{GRAIN, LEAST_GRAIN, Pace};
use crate::queue::Queue;
use crate::rank::Rank;
use crate::runnable::{Runnable, Shareable};
use crate::scripts::RunMeaning;
use crate::setting::Setting;
use crate::shift::work_together;
use crate::staffed::Staffed;
use crate::worker::Worker;
use lvish_board::{Board, BoardBrand, Stand};
use lvish_calculus::{Meaning, Program};
use lvish_compound::{Any, Event};
use lvish_deal::deal;
use lvish_history::Opened;
use lvish_lattice::Lattice;
use lvish_report::Report;
use lvish_syntax::Script;
use lvish_task::ScriptCode;
use lvish_task::laws::{same_models, same_runs};
use std::alloc::Global;
use std::marker::Brand;
use std::sync::Wait;
use std::thread::Threads;

/// Runs the script by this many workers: worker 0 on this thread, the others on threads of their own.
///
/// It is run by worker 0 alone as long as more workers wouldn't pay, unless the gate may hold one.
///
/// # Errors
///
/// `NoThread` where a thread couldn't be started, else `Memory` where a growth or a push was refused,
/// else `Stopped` where some `idle` of the gate answered false, which a lone worker does not ask.
pub fn run<R: Threads + Wait + Sync, G: Gate + Sync>(
    rt: &R,
    alloc: Global,
    script: &Script,
    workers: usize,
    budget: u64,
    gate: &G,
) -> Result<Report<Any, Event>, RunFault>
    requires some { 0 < workers }
    requires few { workers ≤ MOST_WORKERS }
    requires bounded { budget ≤ MOST_STEPS }
    ensures honest { IfOk result (λ r. ⟦<Script as RunMeaning>⟧.is_run script.now workers budget r) }
    ensures patient { G.patient ≡ true → result ≢ Err RunFault.Stopped }
    ensures alone { workers ≡ 1 → (result ≢ Err RunFault.NoThread) × (result ≢ Err RunFault.Stopped) }
    ensures whole { result ≢ Err RunFault.Mixed }
{
    same_runs();
    same_models();
    let code = ScriptCode::new(alloc, script)?;
    run_program(rt, alloc, &code, workers, budget, gate)
}

/// Runs the program by this many workers: worker 0 on this thread, the others on threads of their own.
///
/// It is run by worker 0 alone as long as more workers wouldn't pay ([`Runnable::statements`]), unless the
/// gate may hold one.
///
/// # Errors
///
/// `NoThread` where a thread couldn't be started, else `Memory` where a growth or a push was refused,
/// else `Stopped` where some `idle` of the gate answered false, which a lone worker does not ask.
pub fn run_program<P: Shareable, R: Threads + Wait + Sync, G: Gate + Sync>(
    rt: &R,
    alloc: Global,
    program: &P,
    workers: usize,
    budget: u64,
    gate: &G,
) -> Result<Report<P::Lat, <P::Lat as Lattice>::Event>, RunFault>
    requires some { 0 < workers }
    requires few { workers ≤ MOST_WORKERS }
    requires bounded { budget ≤ MOST_PROGRAM_STEPS }
    ensures honest { IfOk result (λ r. IsHonest (⟦<P as Meaning>⟧.machine program.now) (P.functions program.now).variables workers budget r) }
    // What handlers are handed in it.
    ensures handed { IfOk result (λ r. IsWellHanded (⟦<P as Meaning>⟧.machine program.now) (labels_of r.trace)) }
    // What it says of all other runs that end without an error.
    ensures alike { IfOk result (λ r. IsAlike (⟦<P as Meaning>⟧.machine program.now) (P.functions program.now).variables r) }
    // Its contents are at or below those of each model with what its run froze.
    ensures least { IfOk result (λ r. IsLeast (⟦<P as Meaning>⟧.machine program.now) r) }
    // At an end that no task leaves at a freeze of a frozen variable they are closed.
    ensures closed { IfOk result (λ r. IsClosedEnd (⟦<P as Meaning>⟧.machine program.now) r) }
    ensures patient { G.patient ≡ true → result ≢ Err RunFault.Stopped }
    ensures alone { workers ≡ 1 → (result ≢ Err RunFault.NoThread) × (result ≢ Err RunFault.Stopped) }
    ensures whole { result ≢ Err RunFault.Mixed }
{
    run_named::<P, Brand, R, G>(rt, alloc, program, workers, budget, gate, Opened::new())
}

/// Runs the program that the name is for.
fn run_named<
    P: Shareable,
    N: Naming<P> + Staff + Send + Sync,
    R: Threads + Wait + Sync,
    G: Gate + Sync,
>(
    rt: &R,
    alloc: Global,
    program: &P,
    workers: usize,
    budget: u64,
    gate: &G,
    history: Opened<Stand<P>>,
) -> Result<Report<P::Lat, <P::Lat as Lattice>::Event>, RunFault>
    requires some { 0 < workers }
    requires few { workers ≤ MOST_WORKERS }
    requires bounded { budget ≤ MOST_PROGRAM_STEPS }
    requires program { program.now ≡ unwrap_or N.program P.blank }
    requires budget { budget ≡ N.budget }
    requires workers { workers ≡ N.workers }
    requires history { history.seen.book ≡ N.book }
    ensures told { IfOk result (λ r. IsTold (⟦<P as Meaning>⟧.machine (unwrap_or N.program P.blank)) (P.functions (unwrap_or N.program P.blank)).variables workers N.budget r) }
    ensures patient { G.patient ≡ true → result ≢ Err RunFault.Stopped }
    ensures alone { workers ≡ 1 → (result ≢ Err RunFault.NoThread) × (result ≢ Err RunFault.Stopped) }
    ensures whole { result ≢ Err RunFault.Mixed }
{
    let Ok((board, first)) = Board::<P, Of<N>>::new(alloc, program, budget, history) else {
        return Err(RunFault::Memory);
    };
    let mut queue = Queue::new(alloc);
    queue.push(first)?;
    let setting = Setting {
        rt,
        alloc,
        program,
        gate,
        workers,
    };
    let board = work_off(&setting, Staffed::new(board), queue)?;
    board.report(alloc, workers)
}

/// Works until the board is over: alone, and with a crew where that pays, or where the gate may hold a worker.
fn work_off<
    'p,
    P: Shareable,
    B: BoardBrand<P> + Staff + Send + Sync,
    R: Threads + Wait + Sync,
    G: Gate + Sync,
>(
    setting: &Setting<'_, 'p, P, R, G>,
    board: Staffed<'p, P, B>,
    queue: Queue<P, B>,
) -> Result<Staffed<'p, P, B>, RunFault>
    requires program { setting.now.program.now ≡ B.program }
    requires all { setting.now.workers ≡ B.workers }
    ensures patient { G.patient ≡ true → result ≢ Err RunFault.Stopped }
    ensures alone { setting.now.workers ≡ 1 → (result ≢ Err RunFault.NoThread) × (result ≢ Err RunFault.Stopped) }
    ensures whole { result ≢ Err RunFault.Mixed }
    ensures over { IfOk result (λ b. IsSome b.over) }
{
    let (mut board, mut queue) = begin(setting, board, queue)?;
    let mut changes = 0u32;
    for _ in setting.rt.forever() {
        if board.is_over() {
            return Ok(board);
        }
        (board, queue) = by_turns(setting, changes, board, queue)?;
        changes = changes.saturating_add(2);
    }
    unreachable!()
}

/// Works with a crew where the gate may hold a worker, before anything else: the board, and the work that is left.
fn begin<
    'p,
    P: Shareable,
    B: BoardBrand<P> + Staff + Send + Sync,
    R: Threads + Wait + Sync,
    G: Gate + Sync,
>(
    setting: &Setting<'_, 'p, P, R, G>,
    board: Staffed<'p, P, B>,
    queue: Queue<P, B>,
) -> Result<(Staffed<'p, P, B>, Queue<P, B>), RunFault>
    requires program { setting.now.program.now ≡ B.program }
    requires all { setting.now.workers ≡ B.workers }
    ensures patient { G.patient ≡ true → result ≢ Err RunFault.Stopped }
    ensures alone { setting.now.workers ≡ 1 → (result ≢ Err RunFault.NoThread) × (result ≢ Err RunFault.Stopped) }
    ensures whole { result ≢ Err RunFault.Mixed }
{
    if setting.workers > 1 && setting.gate.holds() {
        crew(setting, Pace::steady(), board, queue)
    } else {
        Ok((board, queue))
    }
}

/// Works alone and then with a crew, after so many changes of the number of workers: the board, and the work that is
/// left.
fn by_turns<
    'p,
    P: Shareable,
    B: BoardBrand<P> + Staff + Send + Sync,
    R: Threads + Wait + Sync,
    G: Gate + Sync,
>(
    setting: &Setting<'_, 'p, P, R, G>,
    changes: u32,
    board: Staffed<'p, P, B>,
    queue: Queue<P, B>,
) -> Result<(Staffed<'p, P, B>, Queue<P, B>), RunFault>
    requires program { setting.now.program.now ≡ B.program }
    requires all { setting.now.workers ≡ B.workers }
    ensures patient { G.patient ≡ true → result ≢ Err RunFault.Stopped }
    ensures alone { setting.now.workers ≡ 1 → (result ≢ Err RunFault.NoThread) × (result ≢ Err RunFault.Stopped) }
    ensures whole { result ≢ Err RunFault.Mixed }
{
    if setting.workers == 1 {
        return alone(setting, Pace::steady(), board, queue);
    }
    let (board, queue) = alone(setting, Pace::after(changes, GRAIN), board, queue)?;
    if board.is_over() {
        Ok((board, queue))
    } else {
        crew(setting, Pace::after(changes, LEAST_GRAIN), board, queue)
    }
}

/// Works alone until the board is over or a crew pays: the board, and the work that is left.
fn alone<'p, P: Runnable, B: BoardBrand<P> + Staff, R: Wait, G: Gate>(
    setting: &Setting<'_, 'p, P, R, G>,
    pace: Pace,
    board: Staffed<'p, P, B>,
    queue: Queue<P, B>,
) -> Result<(Staffed<'p, P, B>, Queue<P, B>), RunFault>
    requires program { setting.now.program.now ≡ B.program }
    requires all { setting.now.workers ≡ B.workers }
    ensures not_stopped { result ≢ Err RunFault.Stopped }
    ensures whole { result ≢ Err RunFault.Mixed }
    ensures all_there { result ≢ Err RunFault.NoThread }
{
    let mut site = OwnSite {
        board,
        gate: setting.gate,
        pace,
        rank: Rank::new(0),
        worker: Worker::new(setting.alloc, setting.program, queue),
    };
    if let Some(fault) = site.work(setting.rt).fault() {
        return Err(fault);
    }
    Ok(site.into_parts()?)
}

/// Works with a crew until the board is over or one worker does better alone: the board, and the work that is
/// left.
fn crew<
    'p,
    P: Shareable,
    B: BoardBrand<P> + Staff + Send + Sync,
    R: Threads + Wait + Sync,
    G: Gate + Sync,
>(
    setting: &Setting<'_, 'p, P, R, G>,
    pace: Pace,
    board: Staffed<'p, P, B>,
    queue: Queue<P, B>,
) -> Result<(Staffed<'p, P, B>, Queue<P, B>), RunFault>
    requires program { setting.now.program.now ≡ B.program }
    requires all { setting.now.workers ≡ B.workers }
    ensures patient { G.patient ≡ true → result ≢ Err RunFault.Stopped }
    ensures whole { result ≢ Err RunFault.Mixed }
{
    let seats = deal(setting.alloc, setting.workers)?;
    let hall = Hall::new(setting.alloc, board);
    if let Some(fault) = work_together(setting, pace, &hall, seats, queue)?.fault() {
        return Err(fault);
    }
    let (board, rest) = hall.into_parts();
    let mut queue = Queue::new(setting.alloc);
    for work in rest {
        queue.push(work)?;
    }
    Ok((board, queue))
}

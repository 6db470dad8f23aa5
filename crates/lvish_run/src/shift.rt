//! What a worker of a crew does on its thread.

ghost use Rattle.std.specs.Prelude.{◌≡◌, ◌≢◌, ◌<◌, ◌≤◌, All, Ok, length, true};
ghost use Rattle.lvish_run.specs.declared.leave.Leave.TheVariants.{Stopped};

use crate::crew::run_workers;
use crate::gate::Gate;
use crate::hall::Hall;
use crate::leave::Leave;
use crate::naming::Staff;
use crate::pace::Pace;
use crate::queue::Queue;
use crate::rank::Rank;
use crate::runnable::{Runnable, Shareable};
use crate::setting::Setting;
use crate::shared::SharedSite;
use crate::worker::Worker;
use lvish_board::{BoardBrand, Work};
use lvish_calculus::Program;
use lvish_deal::Seat;
use std::alloc::AllocError;
use std::sync::Wait;
use std::thread::Threads;

/// The work of one worker of a crew, on whichever thread.
///
/// A thread knows no more of it, so what is proved of threads is the same for all programs.
pub trait Shift: Drop {
    ghost use Rattle.std.specs.Prelude.{Bool};
    ghost use Rattle.lvish_run.specs.Crew.{MayLeave};

    /// Whether the worker's gate is patient.
    ghost patient: { Bool };

    /// Works until the worker leaves: why it does.
    fn work(self) -> Leave
        ensures { MayLeave patient result };

    /// Sends all workers of the crew away.
    fn close(&self);
}

/// A worker at its seat, with the work that waits for it.
#[derive(Drop)]
pub struct Seated<'o, 'r, 'h, 'p, P: Program, B: BoardBrand<P> + Staff, R, G: Gate> {
    pub setting: &'o Setting<'r, 'p, P, R, G>,
    pub hall: &'h Hall<'p, P, B>,
    pub pace: Pace,
    pub seat: Seat<Work<P, B>>,
    pub queue: Queue<P, B>,
    ghost program: { setting.now.program.now ≡ B.program },
    ghost ours: { length seat.deal ≤ B.workers },
}

impl<'o, 'r, 'h, 'p, P: Runnable, B: BoardBrand<P> + Staff, R: Wait, G: Gate> Shift
    for Seated<'o, 'r, 'h, 'p, P, B, R, G> {
    ghost patient = { G.patient };

    fn work(self) -> Leave {
        let Seated {
            setting,
            hall,
            pace,
            seat,
            queue,
        } = self;
        let mut site = SharedSite {
            rt: setting.rt,
            hall,
            gate: setting.gate,
            rank: Rank::new(seat.number()),
            seat,
            pace,
            found: None,
            worker: Worker::new(setting.alloc, setting.program, queue),
        };
        let why = site.work();
        hall.close(setting.rt);
        match site.leave_behind() {
            Ok(()) => why,
            Err(_refused) => Leave::Memory,
        }
    }

    fn close(&self) {
        self.hall.close(self.setting.rt);
    }
}

/// Works at the first seat on this thread, with the work that waits, and at each other seat on a thread of its own.
/// Answers why the workers left.
///
/// # Errors
///
/// Where there is no room for it.
pub fn work_together<
    'p,
    P: Shareable,
    B: BoardBrand<P> + Staff + Send + Sync,
    R: Threads + Wait + Sync,
    G: Gate + Sync,
>(
    setting: &Setting<'_, 'p, P, R, G>,
    pace: Pace,
    hall: &Hall<'p, P, B>,
    seats: Vec<Seat<Work<P, B>>>,
    queue: Queue<P, B>,
) -> Result<Leave, AllocError>
    requires program { setting.now.program.now ≡ B.program }
    requires some { 0 < length seats.items }
    requires ours { All (λ s. length s.deal ≤ B.workers) seats.items }
    ensures patient { G.patient ≡ true → result ≢ Ok Stopped }
{
    let (mine, others) = parted::<Work<P, B>, B>(seats);
    let first = Seated {
        setting,
        hall,
        pace,
        seat: mine,
        queue,
    };
    run_workers(
        setting.rt,
        setting.alloc,
        first,
        take_seats(setting, pace, hall, others)?,
    )
}

/// The first seat, and the others.
fn parted<T, B: Staff>(seats: Vec<Seat<T>>) -> (Seat<T>, Vec<Seat<T>>)
    requires some { 0 < length seats.items }
    requires ours { All (λ s. length s.deal ≤ B.workers) seats.items }
    ensures first { length result.0.deal ≤ B.workers }
    ensures rest { All (λ s. length s.deal ≤ B.workers) result.1.items }
{
    let mut others = seats;
    let first = others.remove(0);
    (first, others)
}

/// Workers at these seats, for whom no work waits.
fn take_seats<'o, 'r, 'h, 'p, P: Program, B: BoardBrand<P> + Staff, R, G: Gate>(
    setting: &'o Setting<'r, 'p, P, R, G>,
    pace: Pace,
    hall: &'h Hall<'p, P, B>,
    mut seats: Vec<Seat<Work<P, B>>>,
) -> Result<Vec<Seated<'o, 'r, 'h, 'p, P, B, R, G>>, AllocError>
    requires program { setting.now.program.now ≡ B.program }
    requires ours { All (λ s. length s.deal ≤ B.workers) seats.items }
{
    let mut workers = Vec::with_capacity(setting.alloc, seats.len())?;
    while let Some(seat) = seats.pop() {
        workers.push(Seated {
            setting,
            hall,
            pace,
            seat,
            queue: Queue::new(setting.alloc),
        })?;
    }
    Ok(workers)
}

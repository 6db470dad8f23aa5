//! What the workers of a crew share.

use crate::naming::Staff;
use crate::seek::find;
use crate::staffed::Staffed;
use crossbeam_utils::{Backoff, CachePadded};
use lvish_board::{BoardBrand, Work};
use lvish_calculus::Program;
use lvish_deal::Seat;
use std::alloc::Global;
use std::sync::atomic::{AtomicBool, AtomicUsize, Ordering};
use std::sync::{Condvar, Mutex, MutexGuard, Wait};

/// How often a worker that finds the board taken tries to take it before it sleeps.
const TRIES: usize = 12;

/// How often a worker without work looks whether there is some before it sleeps.
const LOOKS: usize = 40;

/// How many workers sleep without a piece of work for them, and how many pieces there are for sleepers.
#[derive(Drop)]
struct Sleepers {
    asking: usize,
    served: usize,
}

/// The board, what is left behind, and who sleeps.
///
/// A worker without work asks for a piece and sleeps until there is one for it, or somebody has left. It looks
/// for work once more when nobody else can be told of any. So no piece stays where it is while its worker
/// sleeps: who sleeps has none, and who has some is awake.
#[derive(Drop)]
pub struct Hall<'p, P: Program, B: BoardBrand<P> + Staff> {
    // (on cache lines of its own, since each step writes in it, and the others read the rest at each turn)
    board: CachePadded<Mutex<Staffed<'p, P, B>>>,
    // the work that workers have left behind
    pub rest: Mutex<Vec<Work<P, B>>>,
    // whether one has left
    left: AtomicBool,
    // how many workers ask, and how many pieces there are for sleepers, as the others see it
    asking: AtomicUsize,
    served: AtomicUsize,
    sleepers: Mutex<Sleepers>,
    bell: Condvar,
}

impl<'p, P: Program, B: BoardBrand<P> + Staff> Hall<'p, P, B> {
    /// What a crew shares that begins with this board.
    pub fn new(alloc: Global, board: Staffed<'p, P, B>) -> Hall<'p, P, B> {
        Hall {
            board: CachePadded::new(Mutex::new(board)),
            rest: Mutex::new(Vec::new(alloc)),
            left: AtomicBool::new(false),
            asking: AtomicUsize::new(0),
            served: AtomicUsize::new(0),
            sleepers: Mutex::new(Sleepers {
                asking: 0,
                served: 0,
            }),
            bell: Condvar::new(),
        }
    }

    /// The board, and the work that workers have left behind.
    pub fn into_parts(self) -> (Staffed<'p, P, B>, Vec<Work<P, B>>) {
        let Hall {
            board,
            rest,
            left: _,
            asking: _,
            served: _,
            sleepers: _,
            bell: _,
        } = self;
        (board.into_inner().into_inner(), rest.into_inner())
    }

    /// Takes the board. Where another has it, that is for one step, so a worker mostly spins until then.
    pub fn take<R: Wait>(&self, rt: &R) -> MutexGuard<'_, Staffed<'p, P, B>> {
        if let Some(board) = self.board.try_lock() {
            return board;
        }
        let spins = Backoff::new();
        for _ in 0..TRIES {
            spins.snooze();
            if let Some(board) = self.board.try_lock() {
                return board;
            }
        }
        self.board.lock(rt)
    }

    /// Whether a worker has left.
    #[inline(always)]
    pub fn is_left(&self) -> bool {
        self.left.load(Ordering::Acquire)
    }

    /// Sends all workers away.
    pub fn close<R: Wait>(&self, rt: &R) {
        let sleepers = self.sleepers.lock(rt);
        self.left.store(true, Ordering::SeqCst);
        drop(sleepers);
        self.bell.notify_all();
    }

    /// Whether a worker asks for a piece of work.
    #[inline(always)]
    pub fn is_asked(&self) -> bool {
        self.asking.load(Ordering::Relaxed) > 0
    }

    /// Tells one worker that asks, if there is still one, of a piece of work on a deque.
    pub fn serve<R: Wait>(&self, rt: &R) {
        let mut sleepers = self.sleepers.lock(rt);
        if sleepers.asking == 0 {
            return;
        }
        sleepers.asking -= 1;
        sleepers.served = sleepers.served.saturating_add(1);
        self.asking.store(sleepers.asking, Ordering::Relaxed);
        self.served.store(sleepers.served, Ordering::Relaxed);
        drop(sleepers);
        self.bell.notify_one();
    }

    /// Asks for a piece of work, and sleeps until there is one for the worker of this seat, or another has left. Where
    /// it finds one on the deques after all, it doesn't sleep.
    pub fn sleep<R: Wait, T>(&self, rt: &R, seat: &mut Seat<T>) -> Option<T> {
        let mut sleepers = self.sleepers.lock(rt);
        if let Some(found) = find(seat) {
            return Some(found);
        }
        sleepers.asking = sleepers.asking.saturating_add(1);
        self.asking.store(sleepers.asking, Ordering::Relaxed);
        drop(sleepers);
        let spins = Backoff::new();
        for _ in 0..LOOKS {
            if self.served.load(Ordering::Relaxed) > 0 || self.is_left() {
                break;
            }
            spins.snooze();
        }
        let mut sleepers = self
            .bell
            .wait_while(rt, self.sleepers.lock(rt), |sleepers| {
                sleepers.served == 0 && !self.is_left()
            });
        sleepers.served = sleepers.served.saturating_sub(1);
        self.served.store(sleepers.served, Ordering::Relaxed);
        None
    }
}

//! Gates that hold workers until others have come.

ghost use Rattle.std.specs.Prelude.{true, false};

use crossbeam_utils::Backoff;
use lvish_lattice::Plain;
use lvish_names::{NamePart, TaskName};
use lvish_run::Gate;
use std::sync::atomic::{AtomicBool, AtomicU64, Ordering};

/// How many turns a gate holds a worker at most.
const TURNS: u64 = 1_000_000;

/// Holds whichever of `main/1` and `main/2` is entered first until the other was entered by another
/// worker.
#[derive(Drop)]
pub struct Meeting {
    /// The mark of the worker that first entered `main/1`, 0 before; a worker's mark is its number
    /// and 1.
    pub first: AtomicU64,
    pub second: AtomicU64,
    /// Whether a worker was held for all its turns.
    pub late: AtomicBool,
}

impl Meeting {
    pub fn new() -> Meeting {
        Meeting {
            first: AtomicU64::new(0),
            second: AtomicU64::new(0),
            late: AtomicBool::new(false),
        }
    }

    fn hold(&self, mine: &AtomicU64, other: &AtomicU64, mark: u64) {
        if mine
            .compare_exchange(0, mark, Ordering::SeqCst, Ordering::SeqCst)
            .is_err()
        {
            return;
        }
        let backoff = Backoff::new();
        for _ in 0..TURNS {
            let seen = other.load(Ordering::SeqCst);
            if seen != 0 && seen != mark {
                return;
            }
            backoff.snooze();
        }
        self.late.store(true, Ordering::SeqCst);
    }
}

impl Gate for Meeting {
    ghost use Rattle.std.specs.Prelude.{true};

    ghost patient = { true };

    fn enter<E: Plain>(&self, worker: usize, task: &TaskName<E>) {
        let mark = (worker as u64).saturating_add(1);
        match fork_of_main(task) {
            Some(1) => self.hold(&self.first, &self.second, mark),
            Some(2) => self.hold(&self.second, &self.first, mark),
            _ => {}
        }
    }

    fn idle(&self, _worker: usize) -> bool {
        true
    }
}

/// Which of main's forks the task is; `None` of main and of others' tasks.
pub fn fork_of_main<E: Plain>(task: &TaskName<E>) -> Option<u64> {
    let (last, before) = task.parts().split_last()?;
    match (last, before.split_last()) {
        (NamePart::Fork(number), None) => Some(*number),
        _ => None,
    }
}

/// Waits for the flag, for `TURNS` turns at most; false where it wasn't set.
fn comes(flag: &AtomicBool) -> bool {
    let backoff = Backoff::new();
    for _ in 0..TURNS {
        if flag.load(Ordering::SeqCst) {
            return true;
        }
        backoff.snooze();
    }
    false
}

/// Holds each idle worker until `main/2` was entered, and each worker that enters `main` until there
/// was an idle one.
#[derive(Drop)]
pub struct Resting {
    pub idled: AtomicBool,
    pub entered: AtomicBool,
    /// Whether a worker was held for all its turns.
    pub late: AtomicBool,
}

impl Resting {
    pub fn new() -> Resting {
        Resting {
            idled: AtomicBool::new(false),
            entered: AtomicBool::new(false),
            late: AtomicBool::new(false),
        }
    }

    fn hold(&self, flag: &AtomicBool) {
        if !comes(flag) {
            self.late.store(true, Ordering::SeqCst);
        }
    }
}

impl Gate for Resting {
    ghost use Rattle.std.specs.Prelude.{true};

    ghost patient = { true };

    fn enter<E: Plain>(&self, _worker: usize, task: &TaskName<E>) {
        if task.len() == 0 {
            self.hold(&self.idled);
        } else if fork_of_main(task) == Some(2) {
            self.entered.store(true, Ordering::SeqCst);
        }
    }

    fn idle(&self, _worker: usize) -> bool {
        self.idled.store(true, Ordering::SeqCst);
        self.hold(&self.entered);
        true
    }
}

/// Holds each task until a worker was idle, and sends the first idle worker away.
#[derive(Drop)]
pub struct Away {
    pub idled: AtomicBool,
    pub late: AtomicBool,
}

impl Away {
    pub fn new() -> Away {
        Away {
            idled: AtomicBool::new(false),
            late: AtomicBool::new(false),
        }
    }
}

impl Gate for Away {
    ghost use Rattle.std.specs.Prelude.{false};

    ghost patient = { false };

    fn enter<E: Plain>(&self, _worker: usize, _task: &TaskName<E>) {
        if !comes(&self.idled) {
            self.late.store(true, Ordering::SeqCst);
        }
    }

    fn idle(&self, _worker: usize) -> bool {
        self.idled.swap(true, Ordering::SeqCst)
    }
}

/// A gate that holds nobody, and yet has all workers called from the first turn on.
pub struct Crowd;

impl Gate for Crowd {
    ghost use Rattle.std.specs.Prelude.{true};

    ghost patient = { true };

    fn enter<E: Plain>(&self, _worker: usize, _task: &TaskName<E>) {}

    fn idle(&self, _worker: usize) -> bool {
        true
    }

    fn holds(&self) -> bool {
        true
    }
}

/// Holds nobody, and sends the worker away whose idle turn has this number among all of them.
#[derive(Drop)]
pub struct Leaving {
    turns: AtomicU64,
    number: u64,
}

impl Leaving {
    pub fn at(number: u64) -> Leaving {
        Leaving {
            turns: AtomicU64::new(0),
            number,
        }
    }
}

impl Gate for Leaving {
    ghost use Rattle.std.specs.Prelude.{false};

    ghost patient = { false };

    fn enter<E: Plain>(&self, _worker: usize, _task: &TaskName<E>) {}

    fn idle(&self, _worker: usize) -> bool {
        self.turns.fetch_add(1, Ordering::SeqCst) != self.number
    }

    fn holds(&self) -> bool {
        false
    }
}

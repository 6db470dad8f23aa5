//! When another number of workers pays.
//!
//! A step holds the board, which one worker has at a time; the local statements before it need no board. So
//! workers pay where tasks run many statements between their steps. What a change costs is bounded by
//! a share of the work before it, since each change makes the next dearer.

/// How many local statements a step comes with on average, from which on a crew pays.
pub const GRAIN: u64 = 500;

/// How many are too few for a crew that is there.
pub const LEAST_GRAIN: u64 = GRAIN / 2;

/// How many steps a worker makes before it looks at what they came with.
const FIRST_WINDOW: u64 = 128;

/// The longest window is the first one doubled this often.
const MOST_CHANGES: u32 = 12;

/// The steps of a worker, and the local statements that they came with, since it looked last.
#[derive(Clone, Copy)]
pub struct Pace {
    window: u64,
    grain: u64,
    steps: u64,
    statements: u64,
}

impl Pace {
    /// The pace of a worker that looks for this grain, after so many changes of the number of workers.
    pub fn after(changes: u32, grain: u64) -> Pace {
        Pace {
            window: FIRST_WINDOW << changes.min(MOST_CHANGES),
            grain,
            steps: 0,
            statements: 0,
        }
    }

    /// The pace of a worker that never looks.
    pub fn steady() -> Pace {
        Pace {
            window: u64::MAX,
            grain: 0,
            steps: 0,
            statements: 0,
        }
    }

    /// Counts a step that came with so many local statements.
    #[inline(always)]
    pub fn count(&mut self, statements: usize) {
        self.steps = self.steps.saturating_add(1);
        self.statements = self.statements.saturating_add(statements as u64);
    }

    /// Whether a crew pays, by what the steps of this window came with; `None` before its end.
    #[inline(always)]
    pub fn pays(&mut self) -> Option<bool> {
        if self.steps < self.window {
            return None;
        }
        let pays = self.statements >= self.steps.saturating_mul(self.grain);
        self.steps = 0;
        self.statements = 0;
        Some(pays)
    }
}

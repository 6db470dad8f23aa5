use lvish_lattice::Items;
use lvish_trace::{Outcome, Trace};

/// A variable's content, and whether it is frozen.
pub struct FinalState<S> {
    pub content: S,
    pub frozen: bool,
}

// Written out, so that it is proved once, and not at each exit of a function that owns one.
impl<S: Drop> Drop for FinalState<S> {
    fn drop(self) {
        let FinalState {
            content: _,
            frozen: _,
        } = self;
    }
}

/// The states of the variables, in their order.
pub type States<S> = Items<FinalState<S>>;

/// Numbers by worker, in the order of the workers.
pub type Counts = Items<u64>;

/// Variables, each by its number.
pub type Freezes = Items<usize>;

/// What a run came to, over states `S` and events `E`.
pub struct Report<S, E> {
    pub outcome: Outcome<E>,
    /// Each variable's content and frozen mark, none after an error.
    pub states: States<S>,
    /// The number of steps.
    pub steps: u64,
    /// The number of tasks that haven't ended, 0 after an error.
    pub blocked: u64,
    /// The steps in their order.
    pub trace: Trace<E>,
    /// How many steps each worker made, by its number.
    pub by_worker: Counts,
    /// The frozen variables, in the order in which they were first frozen.
    pub freezes: Freezes,
}

// Written out, so that it is proved once, and not at each exit of a function that owns one.
impl<S: Drop, E: Drop> Drop for Report<S, E> {
    fn drop(self) {
        let Report {
            outcome: _,
            states: _,
            steps: _,
            blocked: _,
            trace: _,
            by_worker: _,
            freezes: _,
        } = self;
    }
}

use crate::act::Act;

/// A step of the trace, told.
#[derive(Clone, Copy)]
pub struct ToldStep {
    /// The index of the task that acts, or that a handing starts.
    pub task: usize,
    /// The line of the statement by which it acts: `end` where it ends, and of a handing the line of
    /// the procedure's `proc`.
    pub line: usize,
    pub act: Act,
}

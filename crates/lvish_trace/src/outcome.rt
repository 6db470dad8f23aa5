use lvish_calculus::ErrorKind;
use lvish_names::TaskName;

/// How a run came to its last configuration.
pub enum Outcome<E> {
    /// Nothing is enabled, and no step gave an error.
    Ended,
    /// The last step gave this error: its kind, its variable if it has one, and the task.
    Error {
        kind: ErrorKind,
        variable: Option<usize>,
        task: TaskName<E>,
    },
    /// As many steps as the budget allows were made, and something is enabled.
    Budget,
}

// Written out, so that it is proved once, and not at each exit of a function that owns one.
impl<E: Drop> Drop for Outcome<E> {
    fn drop(self) {
        match self {
            Outcome::Ended => {}
            Outcome::Error {
                kind: _,
                variable: _,
                task: _,
            } => {}
            Outcome::Budget => {}
        }
    }
}

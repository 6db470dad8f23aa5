use lvish_calculus::{ErrorKind, Request};
use lvish_compound::{Event, Place};

/// What a step does, or what a task asks for.
#[derive(Clone, Copy)]
pub enum Act {
    /// A handing starts the task.
    Begin,
    /// A put into the variable: the greatest event of what is put. A counter's and an amount's number
    /// may be 0, which brings nothing.
    Put {
        variable: usize,
        event: Event,
    },
    /// A get of the variable at this place. The number that it waits for, after `has`, `least` or
    /// `total`, and its answer, where it has one.
    Get {
        variable: usize,
        place: Place,
        wanted: Option<i64>,
        answer: Option<i64>,
    },
    /// A fork, and the index of the task that it starts.
    Fork {
        child: usize,
    },
    /// A handler comes to a pool of this variable.
    Add {
        variable: Option<usize>,
    },
    /// A freeze of the variable.
    Freeze {
        variable: usize,
    },
    /// After 1,000 local statements the task lets others go on.
    Pause,
    /// The task has ended.
    End,
    /// The task's own computation goes wrong.
    Fault(ErrorKind),
}

/// What a task does that asks for nothing of others.
pub fn alone<S, R, L>(request: &Request<S, R, L>) -> Option<Act> {
    match request {
        Request::Pause => Some(Act::Pause),
        Request::End => Some(Act::End),
        Request::Fault(kind) => Some(Act::Fault(*kind)),
        _ => None,
    }
}

ghost use Rattle.std.specs.Prelude.{◌≡◌, Some, None};
ghost use Rattle.lvish_core.specs.Changes.{nothing_moved};

use lvish_names::{HandlerName, TaskName};

/// A task that a step made, and the local state in which it starts.
#[derive(Drop)]
pub struct Made<E, L> {
    pub name: TaskName<E>,
    pub local: L,
}

/// What a step moved: copies, for a caller that keeps track of tasks and handlers.
#[derive(Drop)]
pub struct Moved<E, L> {
    /// The local state in which the acting task goes on; `None` where it has ended.
    pub own: Option<L>,
    /// A task that starts.
    pub made: Option<Made<E, L>>,
    /// The name of a handler that was added.
    pub added: Option<HandlerName<E>>,
}

impl<E, L> Moved<E, L> {
    /// What an error moves, and the end of a task.
    pub(crate) fn nothing() -> Self
        ensures { result ≡ nothing_moved }
    {
        Moved {
            own: None,
            made: None,
            added: None,
        }
    }

    /// The acting task goes on, and nothing else was made.
    pub(crate) fn own(local: L) -> Self
        ensures { result ≡ record { own = Some local; made = None; added = None } }
    {
        Moved {
            own: Some(local),
            made: None,
            added: None,
        }
    }

    /// The acting task goes on, and a handler was added.
    pub(crate) fn added(local: L, handler: HandlerName<E>) -> Self
        ensures { result ≡ record { own = Some local; made = None; added = Some handler } }
    {
        Moved {
            own: Some(local),
            made: None,
            added: Some(handler),
        }
    }
}

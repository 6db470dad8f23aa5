use lvish_names::{HandlerName, TaskName};

/// What a step is: an action of one task, or the handing of one event to one handler.
#[derive(Debug, PartialEq, Eq, Drop)]
pub enum Label<E> {
    /// The task makes the action that it asks for.
    Act(TaskName<E>),
    /// The handler is handed the event.
    Hand(HandlerName<E>, E),
}

/// What came of work that a board was given; where several hold, the first.
///
/// It is [`ActAnswer`](crate::ActAnswer) without the work, which stands where the caller has room for it.
#[derive(Clone, Copy, Debug, PartialEq, Eq)]
pub enum ActKind {
    /// The board is over.
    Over,
    /// The task isn't there, has ended or is at another local state; or there is no such handler.
    Stale,
    /// The task is blocked: the board parks it until a step wakes it. Or the handler has nothing
    /// left.
    Parked,
    /// A growth was refused, or the trace has no room for so large a number of a worker or a task.
    /// Nothing has changed.
    Memory,
    /// A step was made, and left work.
    Next,
    /// A step was made, by which the task has ended or met an error, and left work.
    Gone,
}

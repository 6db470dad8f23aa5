// What a steal answers.

/// What a steal answers.
#[must_use]
#[derive(Clone, Copy, Drop, PartialEq, Eq)]
pub enum Steal<T> {
    /// The item that was at the front.
    Taken(T),
    /// The deque was empty at one moment of the call.
    Nothing,
    /// Another seat took an item first, or the deque was empty at one moment. It is worth another try.
    Again,
}

use lvish_lattice::Items;

/// What can go wrong.
#[derive(Clone, Copy, Debug, PartialEq, Eq)]
pub enum ErrorKind {
    /// A put whose join is top.
    Conflict,
    /// A put that would raise a frozen variable.
    Frozen,
    /// A handler that comes to a frozen variable.
    Late,
    /// A result outside 64 bits.
    Overflow,
    /// A divisor 0.
    Zero,
    /// A number outside a counter's range.
    Range,
    /// A name of more than 64 parts, or more than 64 frames.
    Deep,
}

/// The pools that a freeze names, by number.
pub type Pools = Items<usize>;

/// What a task asks for: over states `S`, reads `R` and local states `L`.
pub enum Request<S, R, L> {
    /// Joins the state to the variable's.
    Put(usize, S),
    /// Waits until the read has an answer in the variable's state.
    Get(usize, R),
    /// Starts a task in this local state.
    Fork(L),
    /// Adds a handler to the pool that runs the procedure on each event.
    Add(usize, usize),
    /// Freezes the variable, once its handlers are drained and the pools' tasks have ended.
    Freeze(usize, Pools),
    /// Lets others go on.
    Pause,
    /// The task has ended.
    End,
    /// The task's own computation went wrong.
    Fault(ErrorKind),
}

// Written out, so that it is proved once, and not at each exit of a function that owns one.
impl<S: Drop, R: Drop, L: Drop> Drop for Request<S, R, L> {
    #[inline(always)]
    fn drop(self) {
        match self {
            Request::Put(_, _) => {}
            Request::Get(_, _) => {}
            Request::Fork(_) => {}
            Request::Add(_, _) => {}
            Request::Freeze(_, _) => {}
            Request::Pause => {}
            Request::End => {}
            Request::Fault(_) => {}
        }
    }
}

/// The reply to a task's request: over states `S` and answers `A`.
pub enum Reply<S, A> {
    /// The action was made.
    Done,
    /// The answer of a get.
    Answer(A),
    /// The exact content of a frozen variable.
    Content(S),
}

// Written out, so that it is proved once, and not at each exit of a function that owns one.
impl<S: Drop, A: Drop> Drop for Reply<S, A> {
    fn drop(self) {
        match self {
            Reply::Done => {}
            Reply::Answer(_) => {}
            Reply::Content(_) => {}
        }
    }
}

use lvish_compound::Event;

/// A call that a task is in.
#[derive(Clone, Copy)]
pub struct Call {
    /// The procedure that calls.
    pub procedure: usize,
    /// The line of the `call`, or of the `freeze` with `each`.
    pub line: usize,
    /// The frozen variable and its event on which `each` calls.
    pub each: Option<(usize, Event)>,
}

/// Where a task stands.
pub struct Standing {
    /// The line of its statement.
    pub line: usize,
    /// The procedure in which that stands.
    pub procedure: usize,
    /// The values of that procedure's locals, in the order of `ToldProcedure::locals`.
    pub values: Vec<i64>,
    /// The calls that led there, the outermost first.
    pub calls: Vec<Call>,
}

// Written out, so that it is proved once, and not at each exit of a function that owns one.
impl Drop for Standing {
    fn drop(self) {
        let Standing {
            line: _,
            procedure: _,
            values: _,
            calls: _,
        } = self;
    }
}

/// A procedure as it stands in the text.
pub struct ToldProcedure<'t> {
    /// Its name.
    pub name: &'t [u8],
    /// The line of its `proc`.
    pub line: usize,
    /// The names of its locals, its parameters first.
    pub locals: Vec<&'t [u8]>,
    /// The line of each of its instructions in flat code.
    pub lines: Vec<usize>,
}

// Written out, so that it is proved once, and not at each exit of a function that owns one.
impl<'t> Drop for ToldProcedure<'t> {
    fn drop(self) {
        let ToldProcedure {
            name: _,
            line: _,
            locals: _,
            lines: _,
        } = self;
    }
}

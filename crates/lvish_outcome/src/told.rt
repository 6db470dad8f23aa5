use crate::earlier::Earlier;
use crate::standing::StandingText;
use crate::trouble::Trouble;
use crate::wait::Wait;

/// What is told of an error.
pub struct ErrorTold<'a> {
    pub standing: StandingText<'a>,
    pub trouble: Trouble<'a>,
    /// The word of the line at which the carets stand, from 0.
    pub word: usize,
    pub earlier: Earlier<'a>,
}

// Written out, so that it is proved once, and not at each exit of a function that owns one.
impl Drop for ErrorTold<'_> {
    fn drop(self) {
        let ErrorTold {
            standing: _,
            trouble: _,
            word: _,
            earlier: _,
        } = self;
    }
}

/// What is told of the tasks that are blocked at a line: how many they are, where the first one stands,
/// and what it waits for.
pub struct BlockedTold<'a> {
    pub count: usize,
    pub standing: StandingText<'a>,
    pub wait: Wait<'a>,
}

// Written out, so that it is proved once, and not at each exit of a function that owns one.
impl Drop for BlockedTold<'_> {
    fn drop(self) {
        let BlockedTold {
            count: _,
            standing: _,
            wait: _,
        } = self;
    }
}

/// A line, and how many steps were made there, or how many tasks stand there.
#[derive(Clone, Copy)]
pub struct LineCount {
    pub line: usize,
    pub count: usize,
}

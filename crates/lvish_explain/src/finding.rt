use crate::hint::Hint;
use crate::reason::Reason;

/// What was found of a fault: why, at which of the words of its line, and what may help.
#[derive(Clone, Copy)]
pub struct Finding<'a> {
    pub reason: Reason,
    pub word: usize,
    pub hint: Hint<'a>,
}

use crate::instruction::Instructions;
use lvish_base::Items;

/// The flat code of a procedure. Its parameters are the first of its locals.
pub struct Routine {
    pub parameters: usize,
    pub locals: usize,
    pub instructions: Instructions,
}

// Written out, so that it is proved once, and not at each exit of a function that owns one.
impl Drop for Routine {
    fn drop(self) {
        let Routine {
            parameters: _,
            locals: _,
            instructions: _,
        } = self;
    }
}

/// Routines by number.
pub type Routines = Items<Routine>;

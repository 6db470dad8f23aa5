ghost use Rattle.std.specs.Prelude.{◌≡◌, IfOk, OnOk};

use crate::remaining::Remaining;
use crate::values::Values;
use std::alloc::{AllocError, Global};

/// Where a procedure is: its next instruction, its number, the values of its locals, and the
/// procedure that an `each` calls, with the events on which it hasn't called it yet.
#[derive(PartialEq, Eq)]
pub struct Frame {
    pub place: usize,
    pub procedure: usize,
    pub values: Values,
    pub each: usize,
    pub events: Remaining,
}

// Written out, so that it is proved once, and not at each exit of a function that owns one.
impl Drop for Frame {
    #[inline(always)]
    fn drop(self) {
        let Frame {
            place: _,
            procedure: _,
            values: _,
            each: _,
            events: _,
        } = self;
    }
}

impl Frame {
    /// Becomes equal to the other, in its own memory.
    ///
    /// # Errors
    ///
    /// Where there is no room for it. Then some of its parts may be the other's.
    #[inline(always)]
    pub fn copy_from(&mut self, alloc: Global, other: &Frame) -> Result<(), AllocError>
        ensures { OnOk result (self.new ≡ other.now) }
    {
        self.place = other.place;
        self.procedure = other.procedure;
        self.each = other.each;
        self.values.copy_from(alloc, &other.values)?;
        self.events.copy_from(&other.events)
    }

    /// An equal frame.
    #[inline(always)]
    pub fn copy(&self, alloc: Global) -> Result<Frame, AllocError>
        ensures { IfOk result (λ f. f ≡ self.now) }
    {
        Ok(Frame {
            place: self.place,
            procedure: self.procedure,
            values: self.values.copy(alloc)?,
            each: self.each,
            events: self.events.copy()?,
        })
    }
}

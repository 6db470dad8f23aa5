ghost use Rattle.std.specs.Prelude.{◌≡◌, IfOk, OnOk};

use crate::frame::Frame;
use crate::frames::Frames;
use std::alloc::{AllocError, Global};

/// What a local state holds: the task's frames, and how many local statements are left before a
/// pause.
///
/// `==` holds of identical ones alone. It compares numbers before lists, so that it is quick where
/// they differ.
#[derive(PartialEq, Eq)]
pub struct Stack {
    pub(crate) left: usize,
    pub(crate) top: Frame,
    pub(crate) below: Frames,
}

// Written out, so that it is proved once, and not at each exit of a function that owns one.
impl Drop for Stack {
    #[inline(always)]
    fn drop(self) {
        let Stack {
            left: _,
            top: _,
            below: _,
        } = self;
    }
}

impl Stack {
    /// Becomes equal to the other, in its own memory.
    ///
    /// # Errors
    ///
    /// Where there is no room for it. Then some of its parts may be the other's.
    #[inline(always)]
    pub fn copy_from(&mut self, alloc: Global, other: &Stack) -> Result<(), AllocError>
        ensures { OnOk result (self.new ≡ other.now) }
    {
        self.left = other.left;
        self.top.copy_from(alloc, &other.top)?;
        self.below.copy_from(&other.below)
    }

    /// An equal stack.
    #[inline(always)]
    pub fn copy(&self, alloc: Global) -> Result<Stack, AllocError>
        ensures { IfOk result (λ s. s ≡ self.now) }
    {
        Ok(Stack {
            left: self.left,
            top: self.top.copy(alloc)?,
            below: self.below.copy()?,
        })
    }
}

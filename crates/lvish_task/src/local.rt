ghost use Rattle.std.specs.Prelude.{◌≤◌, ◌≡◌, IfOk, IfSome};
ghost use Rattle.std.specs.Borrow.{LendsIf, sem};
ghost use Rattle.lvish_task.specs.contracts.local.Local.{the_row};
ghost use Rattle.lvish_task.specs.contracts.stack.Stack.{the_row as stack_row};

use crate::limits::TURNS;
use crate::stack::Stack;
use std::alloc::{AllocError, Global};
use std::marker::Model;
use std::sync::Arc;

/// The local state of a task: its frames, and how many local statements are left before a pause.
///
/// Copies share it. `==` holds of identical local states alone.
pub struct Local {
    stack: Arc<Stack>,
}

// Written out, so that it is proved once, and not at each exit of a function that owns one.
impl Drop for Local {
    #[inline(always)]
    fn drop(self) {
        let Local { stack: _ } = self;
    }
}

impl Model for Local {
    ghost use Rattle.std.specs.Arc.{arc_value};
    ghost use Rattle.lvish_task.specs.declared.stack.Stack.{Stack};

    ghost Value = { Stack };

    ghost view = { λ l. arc_value l.stack };
}

impl PartialEq for Local {
    ghost use Rattle.lvish_task.specs.contracts.stack.StackPartialEq.TheImpl.Laws.{laws-law};

    ghost eq = { ⟦<Stack as PartialEq>⟧.eq };

    ghost laws = { laws-law };

    fn eq(&self, other: &Local) -> bool {
        self.stack() == other.stack()
    }
}

impl Eq for Local {
    ghost use Rattle.lvish_task.specs.contracts.stack.StackEq.TheImpl.Laws.{laws-law};

    ghost laws = { laws-law };
}

impl Local {
    /// A local state that holds the stack.
    #[inline(always)]
    pub(crate) fn new(alloc: Global, stack: Stack) -> Result<Local, AllocError>
        ensures { IfOk result (λ l. l ≡ stack) }
    {
        let stack = Arc::new(alloc, stack)?;
        Ok(Local { stack })
    }

    /// How many local statements its task has run since its last request, at most.
    #[inline(always)]
    pub fn statements(&self) -> usize
        ensures { result ≤ TURNS }
    {
        TURNS.saturating_sub(self.stack().left)
    }

    /// What it holds.
    #[inline(always)]
    pub(crate) fn stack(&self) -> &Stack
        ensures { result.now ≡ self.now }
    {
        &self.stack
    }

    /// What it holds, to be changed, where no other local state shares it.
    #[inline(always)]
    pub(crate) fn stack_mut(&mut self) -> Option<&mut Stack>
        ensures* writes_back { sem 𝓛 (LendsIf the_row stack_row self.entry result (λ s. s) self.old) }
        ensures value { IfSome result (λ s. s.now ≡ self.old) }
    {
        Arc::get_mut(&mut self.stack)
    }

    /// An equal local state, which no other shares: in the memory of `spare`, where no other shares
    /// that.
    ///
    /// # Errors
    ///
    /// Where there is no room for it.
    #[inline(always)]
    pub(crate) fn copy_into(&self, alloc: Global, spare: Option<Local>) -> Result<Local, AllocError>
        ensures { IfOk result (λ l. l ≡ self.now) }
    {
        if let Some(mut spare) = spare {
            if let Some(stack) = spare.stack_mut() {
                stack.copy_from(alloc, self.stack())?;
                return Ok(spare);
            }
        }
        self.copy_anew(alloc)
    }

    /// An equal local state, which no other shares, in memory of its own.
    ///
    /// It isn't inlined, since a step mostly leaves a local state behind, whose memory the next one
    /// takes.
    #[inline(never)]
    fn copy_anew(&self, alloc: Global) -> Result<Local, AllocError>
        ensures { IfOk result (λ l. l ≡ self.now) }
    {
        Local::new(alloc, self.stack().copy(alloc)?)
    }

    /// The same local state, which both share.
    ///
    /// # Errors
    ///
    /// Where more share it than can be counted.
    #[inline(always)]
    pub fn copy(&self) -> Result<Local, AllocError>
        ensures { IfOk result (λ l. l ≡ self.now) }
    {
        let stack = self.stack.clone()?;
        Ok(Local { stack })
    }
}

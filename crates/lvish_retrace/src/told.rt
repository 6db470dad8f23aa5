use crate::live::Live;
use crate::pools::{InPools, in_pools};
use crate::story::Story;
use lvish_core::Core;
use lvish_task::ScriptCode;
use std::alloc::{AllocError, Global};

/// A run, told.
pub struct Told<'c, 't> {
    /// The core after the run's last step. After an error its variables, handlers and tasks are as they
    /// were before the step that met it.
    pub core: Core<'c, ScriptCode>,
    /// What is told. It stands apart, so that who reads it alone needn't know the core.
    pub story: Story<'t>,
}

// Written out, so that it is proved once, and not at each exit of a function that owns one.
impl<'c, 't> Drop for Told<'c, 't> {
    fn drop(self) {
        let Told { core: _, story: _ } = self;
    }
}

impl Told<'_, '_> {
    /// Which tasks run in the pools for which a task waits that asks for a freeze; `None` where it asks for
    /// something else.
    ///
    /// # Errors
    ///
    /// `AllocError` where a growth was refused.
    pub fn in_pools(&self, alloc: Global, live: &Live) -> Result<Option<InPools>, AllocError> {
        let names = self.story.names.as_slice();
        in_pools(
            alloc,
            &self.core,
            names,
            self.story.live.as_slice(),
            live.task,
        )
    }
}

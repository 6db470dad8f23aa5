//! The tasks that a walk leaves.

use crate::act::Act;
use crate::crew::Crew;
use crate::standing::Standing;
use crate::told_step::ToldStep;
use crate::walk::{asked, told_of};
use lvish_core::Core;
use lvish_task::ScriptCode;
use std::alloc::{AllocError, Global};

/// A task that hasn't ended.
pub struct Live {
    /// Its index.
    pub task: usize,
    /// What it asks for.
    pub act: Act,
    /// Where it asks.
    pub standing: Standing,
}

// Written out, so that it is proved once, and not at each exit of a function that owns one.
impl Drop for Live {
    fn drop(self) {
        let Live {
            task: _,
            act: _,
            standing: _,
        } = self;
    }
}

/// The tasks that haven't ended, with what they ask for and where.
pub fn all_live(
    alloc: Global,
    core: &Core<'_, ScriptCode>,
    crew: &mut Crew<'_, '_>,
) -> Result<Vec<Live>, AllocError> {
    let mut live = Vec::new(alloc);
    for task in 0..core.tasks() {
        if let Some(told) = last_of(alloc, core, crew, task)? {
            live.push(Live {
                task,
                act: told.act,
                standing: crew.standing(alloc, task)?,
            })?;
        }
    }
    Ok(live)
}

/// What the task of this index asks for, where it hasn't ended.
fn last_of(
    alloc: Global,
    core: &Core<'_, ScriptCode>,
    crew: &mut Crew<'_, '_>,
    task: usize,
) -> Result<Option<ToldStep>, AllocError> {
    let Some(name) = core.name_at(task) else {
        return Ok(None);
    };
    let Some((task, asks)) = asked(alloc, core, name)? else {
        return Ok(None);
    };
    Ok(Some(told_of(alloc, core, crew, task, &asks)?))
}

//! Which tasks run in the pools that a freeze names.

use crate::live::Live;
use lvish_calculus::Request;
use lvish_compound::Event;
use lvish_core::Core;
use lvish_handlers::Held;
use lvish_lattice::Plain;
use lvish_names::TaskName;
use lvish_task::ScriptCode;
use std::alloc::{AllocError, Global};

/// The tasks that run in some pools: how many they are, and whether the one that waits for them is one.
#[derive(Clone, Copy)]
pub struct InPools {
    pub count: usize,
    pub is_own: bool,
}

/// Whether a task runs in one of these pools.
fn runs_in<E: Plain>(held: &[Held<E>], pools: &[usize], task: &TaskName<E>) -> bool {
    for handler in held {
        if task.runs_in(&handler.name) && pools.contains(&handler.pool) {
            return true;
        }
    }
    false
}

/// How many of the tasks run in these pools.
fn running<E: Plain>(
    held: &[Held<E>],
    pools: &[usize],
    names: &[TaskName<E>],
    live: &[Live],
) -> usize {
    let mut count = 0;
    for task in live {
        if let Some(name) = names.get(task.task) {
            if runs_in(held, pools, name) {
                count += 1;
            }
        }
    }
    count
}

/// Which of the tasks run in the pools that the task of this index names in its freeze.
pub fn in_pools(
    alloc: Global,
    core: &Core<'_, ScriptCode>,
    names: &[TaskName<Event>],
    live: &[Live],
    task: usize,
) -> Result<Option<InPools>, AllocError> {
    let Some(name) = names.get(task) else {
        return Ok(None);
    };
    let request = core.request_of(alloc, name)?;
    let Some(Request::Freeze(variable, pools)) = &request else {
        return Ok(None);
    };
    if *variable >= core.states().len() {
        return Ok(None);
    }
    let held = core.handlers(*variable);
    let pools = pools.as_slice();
    Ok(Some(InPools {
        count: running(held, pools, names, live),
        is_own: runs_in(held, pools, name),
    }))
}

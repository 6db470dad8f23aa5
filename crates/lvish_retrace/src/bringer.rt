ghost use Rattle.std.specs.Prelude.{◌≡◌, ◌==◌, ◌&&◌, ◌++◌, OnOk, drop};
ghost use Rattle.lvish_retrace.specs.Brought.{IsPutOf, noted};

use lvish_lattice::Plain;
use lvish_names::TaskName;
use lvish_variable::Entry;
use std::alloc::AllocError;

/// An event of a variable, and the put that brought it.
pub struct Bringer<E> {
    pub variable: usize,
    pub event: E,
    /// The task that put it.
    pub task: TaskName<E>,
    /// The number of the put among that task's puts, from 1.
    pub number: u64,
    /// The step, from 0, by which the task made the put.
    pub step: usize,
}

// Written out, so that it is proved once, and not at each exit of a function that owns one.
impl<E: Drop> Drop for Bringer<E> {
    fn drop(self) {
        let Bringer {
            variable: _,
            event: _,
            task: _,
            number: _,
            step: _,
        } = self;
    }
}

/// Whether the put brought this event to this variable.
fn is_of<E: Plain>(put: &Bringer<E>, variable: usize, event: &E) -> bool
    ensures { result ≡ (put.now.variable == variable && E.eq put.now.event event.now) }
{
    put.variable == variable && put.event == *event
}

/// The place, among these, of the put that brought the event to the variable.
pub fn put_of<E: Plain>(brought: &[Bringer<E>], variable: usize, event: &E) -> Option<usize>
    ensures { IsPutOf brought.now variable event.now result }
{
    for place in 0..brought.len() {
        if is_of(&brought[place], variable, event) {
            return Some(place);
        }
    }
    None
}

/// Notes the entries of a variable's log from this place on, which this step brought.
pub fn note_entries<E: Plain>(
    brought: &mut Vec<Bringer<E>>,
    variable: usize,
    log: &[Entry<E>],
    from: usize,
    step: usize,
) -> Result<(), AllocError>
    ensures { OnOk result (brought.new.items ≡ brought.old.items ++ noted variable step (drop from log.now)) }
{
    for place in from..log.len() {
        let entry = &log[place];
        brought.push(Bringer {
            variable,
            event: entry.event,
            task: entry.task.copy()?,
            number: entry.number,
            step,
        })?;
    }
    Ok(())
}

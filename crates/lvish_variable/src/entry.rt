ghost use Rattle.std.specs.Prelude.{◌≡◌, ◌++◌, ◌∷◌, [], IfOk, IfErr};
ghost use Rattle.lvish_variable.specs.Variable.{entries};

use lvish_lattice::Plain;
use lvish_names::TaskName;
use std::alloc::AllocError;

/// An event of a variable, and the put that brought it.
#[derive(Debug)]
pub struct Entry<E> {
    pub event: E,
    /// The task that put it.
    pub task: TaskName<E>,
    /// The number of the put among that task's puts, from 1.
    pub number: u64,
}

// Written out, so that it is proved once, and not at each exit of a function that owns one.
impl<E: Drop> Drop for Entry<E> {
    fn drop(self) {
        let Entry {
            event: _,
            task: _,
            number: _,
        } = self;
    }
}

/// Puts an entry onto the log's end, if there is room for it.
#[inline(always)]
pub(crate) fn note_one<E: Plain>(
    log: &mut Vec<Entry<E>>,
    event: E,
    task: &TaskName<E>,
    number: u64,
) -> Result<(), AllocError>
    ensures ok { IfOk result (λ _. log.new.items ≡ log.old.items ++ entries task.now number (event ∷ [])) }
    ensures refused { IfErr result (λ _. log.new.items ≡ log.old.items) }
{
    log.reserve(1)?;
    let Ok(task) = task.copy() else {
        return Err(AllocError);
    };
    log.push_reserved(Entry {
        event,
        task,
        number,
    });
    Ok(())
}

/// Puts the entries of one put onto the log's end, or none where there is no room for them all.
pub(crate) fn note<E: Plain>(
    log: &mut Vec<Entry<E>>,
    events: &[E],
    task: &TaskName<E>,
    number: u64,
) -> Result<(), AllocError>
    ensures ok { IfOk result (λ _. log.new.items ≡ log.old.items ++ entries task.now number events.now) }
    ensures refused { IfErr result (λ _. log.new.items ≡ log.old.items) }
{
    log.reserve(events.len())?;
    let before = log.len();
    for event in events {
        if let Err(refused) = note_one(log, *event, task, number) {
            log.truncate(before);
            return Err(refused);
        }
    }
    Ok(())
}

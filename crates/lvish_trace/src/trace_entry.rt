ghost use Rattle.std.specs.Prelude.{◌≡◌, IfOk, option_copied, unwrap_or};
ghost use Rattle.lvish_names.specs.Names.{main};
ghost use Rattle.lvish_trace.specs.Packed.{handing_of, label_by};

use crate::packed_step::{PackedStep, Step};
use lvish_calculus::Label;
use lvish_lattice::Plain;
use lvish_names::{NamePart, TaskName};
use std::alloc::AllocError;

/// A step of a run with its label, and the worker that made it.
pub struct TraceEntry<E> {
    pub worker: usize,
    pub label: Label<E>,
}

// Written out, so that it is proved once, and not at each exit of a function that owns one.
impl<E: Drop> Drop for TraceEntry<E> {
    fn drop(self) {
        let TraceEntry {
            worker: _,
            label: _,
        } = self;
    }
}

/// The entry of a step whose task has this name.
///
/// # Errors
///
/// Where more names share it than can be counted.
pub fn entry_by<E: Plain>(
    noted: PackedStep,
    name: Option<&TaskName<E>>,
) -> Result<TraceEntry<E>, AllocError>
    ensures { IfOk result (λ e. e ≡ record { worker = noted.worker; label = label_by (unwrap_or (option_copied name.entry) main) noted.step }) }
{
    let main = TaskName::main();
    named_entry(noted, name.unwrap_or(&main))
}

/// The entry of a step of the task of this name.
///
/// # Errors
///
/// Where more names share it than can be counted.
fn named_entry<E: Plain>(noted: PackedStep, name: &TaskName<E>) -> Result<TraceEntry<E>, AllocError>
    ensures { IfOk result (λ e. e ≡ record { worker = noted.worker; label = label_by name.now noted.step }) }
{
    let label = match noted.step() {
        Step::Act(_) => Label::Act(name.copy()?),
        Step::Hand(_) => handing(name)?,
    };
    Ok(TraceEntry {
        worker: noted.worker(),
        label,
    })
}

/// The label of the handing that starts the task of this name.
///
/// # Errors
///
/// Where more names share the handler's than can be counted.
fn handing<E: Plain>(name: &TaskName<E>) -> Result<Label<E>, AllocError>
    ensures { IfOk result (λ l. l ≡ handing_of name.now) }
{
    if let Some((NamePart::Hand(_, event), _adder)) = name.parts().split_last() {
        if let Some(handler) = name.pool_of()? {
            return Ok(Label::Hand(handler, *event));
        }
    }
    Ok(Label::Act(name.copy()?))
}

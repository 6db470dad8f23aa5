//! What a fork makes.

ghost use Rattle.std.specs.Prelude.{◌≡◌, true, IfOk, MatchOption};
ghost use Rattle.lvish_names.specs.Names.{is_deep};
ghost use Rattle.lvish_core.specs.Tasks.{IsChild};

use crate::moved::Made;
use crate::stage::Stage;
use lvish_calculus::Program;
use lvish_lattice::Lattice;
use lvish_names::{NameFault, TaskName};
use std::alloc::{AllocError, Global};

/// A task that starts, and what is told of it.
#[derive(Drop)]
pub struct Child<E, L> {
    pub name: TaskName<E>,
    pub stage: Stage<L>,
    pub made: Made<E, L>,
}

/// The parent's child of this number, in the local state; `None` where its name would be too long.
pub(crate) fn child_of<P: Program>(
    program: &P,
    alloc: Global,
    parent: &TaskName<<P::Lat as Lattice>::Event>,
    number: u64,
    local: &P::Local,
) -> Result<Option<Child<<P::Lat as Lattice>::Event, P::Local>>, AllocError>
    ensures { IfOk result (λ o. MatchOption o (is_deep parent.now ≡ true) (λ c. IsChild parent.now number local.now c)) }
{
    let name = match parent.child(alloc, number) {
        Ok(name) => name,
        Err(NameFault::Deep) => return Ok(None),
        Err(NameFault::Memory) => return Err(AllocError),
    };
    let made = Made {
        name: name.copy()?,
        local: program.copy_local(alloc, local)?,
    };
    let stage = Stage::started(program.copy_local(alloc, local)?);
    Ok(Some(Child { name, stage, made }))
}

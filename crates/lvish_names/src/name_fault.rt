use std::alloc::AllocError;
use thiserror::Error;

/// Why a name wasn't made.
#[derive(Clone, Copy, Debug, PartialEq, Eq, Error)]
pub enum NameFault {
    /// The task's name has 64 parts.
    #[error("the task's name has 64 parts")]
    Deep,
    /// A growth was refused.
    #[error("out of memory")]
    Memory,
}

impl From<AllocError> for NameFault {
    ghost use Rattle.std.specs.Prelude.{◌≡◌};
    ghost use Rattle.lvish_names.specs.declared.name_fault.NameFault.TheVariants.{Memory};

    ghost from_gives = { λ _ e. e ≡ Memory };

    fn from(_error: AllocError) -> NameFault {
        NameFault::Memory
    }
}

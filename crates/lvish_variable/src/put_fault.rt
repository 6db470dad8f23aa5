use std::alloc::AllocError;
use thiserror::Error;

/// Why a put was refused.
#[derive(Clone, Copy, Debug, PartialEq, Eq, Error)]
pub enum PutFault {
    /// The join of the state and what was put is top.
    #[error("the join is top")]
    Conflict,
    /// The variable is frozen, and the join differs from its state.
    #[error("the variable is frozen")]
    Frozen,
    /// A growth was refused.
    #[error("out of memory")]
    Memory,
}

impl From<AllocError> for PutFault {
    ghost use Rattle.std.specs.Prelude.{◌≡◌};
    ghost use Rattle.lvish_variable.specs.declared.put_fault.PutFault.TheVariants.{Memory};

    ghost from_gives = { λ _ e. e ≡ Memory };

    fn from(_refused: AllocError) -> PutFault {
        PutFault::Memory
    }
}

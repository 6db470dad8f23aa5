use std::alloc::AllocFailed;
use thiserror::Error;

/// Why a handler wasn't added.
#[derive(Clone, Copy, Debug, PartialEq, Eq, Error)]
pub enum AddFault {
    /// The variable is frozen.
    #[error("the variable is frozen")]
    Late,
    /// A growth was refused.
    #[error("out of memory")]
    Memory,
}

impl<T: Drop> From<AllocFailed<T>> for AddFault {
    ghost use Rattle.std.specs.Prelude.{◌≡◌};
    ghost use Rattle.lvish_handlers.specs.declared.fault.AddFault.TheVariants.{Memory};

    ghost from_gives = { λ _ e. e ≡ Memory };

    fn from(_error: AllocFailed<T>) -> AddFault {
        AddFault::Memory
    }
}

/// There is nothing to hand: the handler was handed the whole log, or none has the name.
#[derive(Clone, Copy, Debug, PartialEq, Eq, Error)]
#[error("nothing to hand")]
pub struct NothingToHand;

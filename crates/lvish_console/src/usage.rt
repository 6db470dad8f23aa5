use std::alloc::AllocError;
use thiserror::Error;

/// Why the words are no order.
#[derive(Debug, Drop, Error)]
pub enum UsageFault {
    /// Help was asked for: this is it.
    #[error("{0}")]
    Help(String),
    /// The words are refused, and this says why.
    #[error("{0}")]
    Refused(String),
    #[error("memory")]
    Memory,
}

impl From<AllocError> for UsageFault {
    ghost use Rattle.std.specs.Prelude.{◌≡◌};
    ghost use Rattle.lvish_console.specs.declared.usage.UsageFault.TheVariants.{Memory};

    ghost from_gives = { λ _ f. f ≡ Memory };

    fn from(_error: AllocError) -> UsageFault {
        UsageFault::Memory
    }
}

use std::alloc::AllocError;
use thiserror::Error;

/// Why a text has no formatted one.
#[derive(Clone, Copy, Debug, PartialEq, Eq, Error)]
pub enum FormatFault {
    /// The text, or the formatted one, has more bytes than a script may have.
    #[error("too long")]
    TooLong,
    /// A growth was refused.
    #[error("memory")]
    Memory,
}

impl From<AllocError> for FormatFault {
    ghost use Rattle.std.specs.Prelude.{◌≡◌};
    ghost use Rattle.lvish_format.specs.declared.fault.FormatFault.TheVariants.{Memory};

    ghost from_gives = { λ _ e. e ≡ Memory };

    fn from(_refused: AllocError) -> FormatFault {
        FormatFault::Memory
    }
}

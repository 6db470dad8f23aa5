use lvish_lattice::Range;
use std::alloc::AllocError;
use thiserror::Error;

/// Why there is no tally with an amount.
#[derive(Clone, Copy, Debug, PartialEq, Eq, Error)]
pub enum AmountFault {
    /// The amount is outside 0 to `HIGHEST_LEVEL`.
    #[error("an amount is from 0 to 1000")]
    Range,
    /// A growth was refused.
    #[error("out of memory")]
    Memory,
}

impl From<Range> for AmountFault {
    ghost use Rattle.std.specs.Prelude.{◌≡◌};
    ghost use Rattle.lvish_compound.specs.declared.amount_fault.AmountFault.TheVariants as fault;

    ghost from_gives = { λ _ e. e ≡ fault.Range };

    fn from(_refused: Range) -> AmountFault {
        AmountFault::Range
    }
}

impl From<AllocError> for AmountFault {
    ghost use Rattle.std.specs.Prelude.{◌≡◌};
    ghost use Rattle.lvish_compound.specs.declared.amount_fault.AmountFault.TheVariants.{Memory};

    ghost from_gives = { λ _ e. e ≡ Memory };

    fn from(_refused: AllocError) -> AmountFault {
        AmountFault::Memory
    }
}

ghost use Rattle.std.specs.Prelude.{◌≡◌};

use crate::fault::Fault;
use std::alloc::AllocError;

/// A fault, and the line on which it is, numbered from 1; line 0 is the whole text.
#[derive(Clone, Copy, Debug, PartialEq, Eq)]
pub struct ScriptFault {
    pub fault: Fault,
    pub line: usize,
}

impl From<AllocError> for ScriptFault {
    ghost use Rattle.lvish_checks.specs.declared.fault.Fault.TheVariants.{Memory};

    ghost from_gives = { λ _ e. e ≡ record { fault = Memory; line = 0 } };

    fn from(_e: AllocError) -> ScriptFault {
        ScriptFault {
            fault: Fault::Memory,
            line: 0,
        }
    }
}

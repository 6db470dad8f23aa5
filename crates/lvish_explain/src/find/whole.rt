ghost use Rattle.std.specs.Prelude.{◌≡◌, IfOk};
ghost use Rattle.lvish_explain.specs.Reasons.{fault_of};
ghost use Rattle.lvish_checks.specs.declared.fault.Fault.TheVariants.{NoMain};

use crate::find::name::named;
use crate::finding::Finding;
use crate::hint::Hint;
use crate::known::{Space, declared};
use crate::reason::Reason;
use std::alloc::{AllocError, Global};

/// Why there is no procedure `main` without parameters.
pub fn no_main<'a>(alloc: Global, lines: &[&'a [u8]]) -> Result<Finding<'a>, AllocError>
    ensures { IfOk result (λ found. fault_of found.reason ≡ NoMain) }
{
    let known = declared(alloc, lines, Space::Procedure)?;
    match named(known.as_slice(), b"main") {
        Some(main) => Ok(Finding {
            reason: Reason::MainHasParameters,
            word: 0,
            hint: Hint::Line(main.line, "declares it"),
        }),
        None => Ok(Finding {
            reason: Reason::NoMain,
            word: 0,
            hint: Hint::Nothing,
        }),
    }
}

//! The text by which outcomes are told apart: of a report, with a line for each variable.

ghost use Rattle.std.specs.Prelude.{◌≡◌, IfOk};
ghost use Rattle.std.specs.Str.{bytes_eq};
ghost use Rattle.lvish_try.specs.Tried.{IsShown, shown};

use lvish_compound::{Any, Event};
use lvish_lattice::Items;
use lvish_run::{Report, report_text};
use lvish_syntax::Script;
use std::alloc::{AllocError, Global};

/// A text as its bytes.
pub type Text = Items<u8>;

/// What a report says, with a line for each variable.
pub fn shown(
    alloc: Global,
    script: &Script,
    report: &Report<Any, Event>,
) -> Result<Text, AllocError>
    requires { IsShown script.now report.now }
    ensures { IfOk result (λ t. t ≡ shown script.now report.now) }
{
    let text = report_text(alloc, script, report, true)?;
    Ok(Text::from(text.into_bytes()))
}

/// Whether two texts are the same.
pub fn are_same(one: &[u8], other: &[u8]) -> bool
    ensures { result ≡ bytes_eq one.now other.now }
{
    one == other
}

ghost use Rattle.std.specs.Prelude.{IfOk};
ghost use Rattle.lvish_cli.specs.Layouts.{IsFormatAnswer};

use crate::output::Output;
use crate::refusing::refusal;
use crate::status::Status;
use lvish_format::{FormatFault, format_script};
use lvish_script::Fault;
use std::alloc::{AllocError, Global};

/// The text in one layout. Where it is too long for a script, or would be, it has that fault.
pub fn format_answer(alloc: Global, input: &[u8]) -> Result<Output, AllocError>
    ensures { IfOk result (λ answer. IsFormatAnswer input.now answer.status answer.text.items) }
{
    match format_script(alloc, input) {
        Ok(text) => Ok(Output::said(Status::Done, text)),
        Err(FormatFault::TooLong) => refusal(alloc, Fault::TooLong, 0),
        Err(FormatFault::Memory) => Err(AllocError),
    }
}

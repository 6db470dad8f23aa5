ghost use Rattle.std.specs.Prelude.{◌≡◌, IfOk};
ghost use Rattle.lvish_checks.specs.Fault.{fault_number, fault_name};
ghost use Rattle.lvish_cli.specs.Lines.{refusal_text};
ghost use Rattle.lvish_cli.specs.Refusals.{IsRefusalAnswer};
ghost use Rattle.lvish_cli.specs.declared.status.Status.TheVariants.{Refused};

use crate::lines::refusal_line;
use crate::output::Output;
use crate::status::Status;
use lvish_json::refusal_json;
use lvish_script::{Fault, ScriptFault};
use std::alloc::{AllocError, Global};

/// The answer to a text that is no script, for people or for programs.
pub fn refusal_answer(alloc: Global, refused: ScriptFault, json: bool) -> Result<Output, AllocError>
    ensures { IfOk result (λ answer.
        IsRefusalAnswer refused json answer.status answer.text.items) }
{
    if refused.fault == Fault::Memory {
        return Err(AllocError);
    }
    if json {
        let text = refusal_json(alloc, refused)?;
        return Ok(Output::said(Status::Refused, text));
    }
    refusal(alloc, refused.fault, refused.line)
}

/// A fault, and the line on which it is.
pub fn refusal(alloc: Global, fault: Fault, line: usize) -> Result<Output, AllocError>
    ensures status { IfOk result (λ answer. answer.status ≡ Refused) }
    ensures text { IfOk result (λ answer. answer.text.items ≡ refusal_text (fault_number fault) (fault_name fault) line) }
{
    let text = refusal_line(alloc, fault.number(), fault.name(), line)?;
    Ok(Output::said(Status::Refused, text.into_bytes()))
}

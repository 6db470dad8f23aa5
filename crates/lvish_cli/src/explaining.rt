//! What standard error says of what came of words.

ghost use Rattle.std.specs.Prelude.{IfOk};
ghost use Rattle.lvish_cli.specs.Explained.{IsWhy};

use crate::performing::Left;
use crate::telling::{Telling, painted};
use lvish_explain::explain;
use lvish_outcome::explain_outcome;
use lvish_script::{Fault, read_script};
use std::alloc::{AllocError, Global};
use std::io::Error;

/// The explanation of a text that is no script, for the file at a path; nothing of a script.
pub fn why_of_text(alloc: Global, path: &str, text: &[u8]) -> Result<Option<Vec<u8>>, AllocError>
    ensures { IfOk result (IsWhy path.now text.now) }
{
    match read_script(alloc, text) {
        Ok(_script) => Ok(None),
        Err(fault) if fault.fault == Fault::Memory => Err(AllocError),
        Err(fault) => Ok(Some(explain(alloc, path, text, fault)?)),
    }
}

/// That the file at a path can't be read, and what the system said.
pub(crate) fn unreadable(alloc: Global, path: &str, error: &Error) -> Option<Vec<u8>> {
    match format!(in alloc; "{path}: {error}\n") {
        Ok(text) => Some(text.into_bytes()),
        Err(_) => None,
    }
}

/// What standard error says of what was left: why the script couldn't be read, and where explanations
/// are asked for, why it is refused, or what its run came to. What there is no memory for isn't said.
pub(crate) fn told_of(alloc: Global, path: &str, left: &Left, telling: Telling) -> Option<Vec<u8>> {
    if let Left::Unread(error) = left {
        return unreadable(alloc, path, error);
    }
    if !telling.explains {
        return None;
    }
    match explained(alloc, path, left) {
        Ok(Some(told)) if telling.colours && !told.is_empty() => {
            match painted(alloc, told.as_slice()) {
                Ok(painted) => Some(painted),
                Err(_) => None,
            }
        }
        Ok(told) => told,
        Err(_) => None,
    }
}

/// Why the text is refused, or what its run came to.
fn explained(alloc: Global, path: &str, left: &Left) -> Result<Option<Vec<u8>>, AllocError> {
    match left {
        Left::Answered {
            input,
            script: None,
            report: _,
        } => why_of_text(alloc, path, input.as_slice()),
        Left::Answered {
            input,
            script: Some(script),
            report: Some(report),
        } => Ok(Some(explain_outcome(alloc, path, input.as_slice(), script, report)?)),
        _ => Ok(None),
    }
}

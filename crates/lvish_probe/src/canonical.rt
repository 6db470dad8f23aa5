//! Canonical texts.

use crate::answer::{ProbeAnswer, done, refusal};
use lvish_script::{ScriptFault, read_script, write_script};
use std::alloc::{AllocError, Global};

/// The canonical text of the script, which has to be the canonical text of itself.
pub fn canonical_text(alloc: Global, script: &[u8]) -> Result<ProbeAnswer, AllocError> {
    let text = match written(alloc, script) {
        Ok(text) => text,
        Err(refused) => return refusal(alloc, &refused),
    };
    match written(alloc, text.as_bytes()) {
        Ok(again) if again.as_str() == text.as_str() => Ok(done(text)),
        Ok(again) => Ok(done(format!(in alloc; "{text}is read and written again as\n{again}")?)),
        Err(refused) => refusal(alloc, &refused),
    }
}

/// The canonical text of the script that these bytes spell.
fn written(alloc: Global, bytes: &[u8]) -> Result<String, ScriptFault> {
    let script = read_script(alloc, bytes)?;
    Ok(write_script(alloc, &script)?)
}

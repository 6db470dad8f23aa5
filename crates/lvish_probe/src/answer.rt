//! What is answered to a question.

use lvish_script::{Fault, ScriptFault};
use std::alloc::{AllocError, Global};

/// What is printed, and the number of the status that goes with it.
pub struct ProbeAnswer {
    pub status: u8,
    pub text: String,
}

// Written out, so that it is proved once, and not at each exit of a function that owns one.
impl Drop for ProbeAnswer {
    fn drop(self) {
        let ProbeAnswer { status: _, text: _ } = self;
    }
}

/// The answer of a text, as of an order that is done.
pub fn done(text: String) -> ProbeAnswer {
    ProbeAnswer { status: 0, text }
}

/// The answer to words that ask for nothing.
pub fn misuse(alloc: Global, text: &str) -> Result<ProbeAnswer, AllocError> {
    let text = String::from_str(alloc, text)?;
    Ok(ProbeAnswer { status: 2, text })
}

/// The answer about a text that is no script; none where there was no memory to read it.
pub fn refusal(alloc: Global, refused: &ScriptFault) -> Result<ProbeAnswer, AllocError> {
    if let Fault::Memory = refused.fault {
        return Err(AllocError);
    }
    let (number, name, line) = (refused.fault.number(), refused.fault.name(), refused.line);
    let text = format!(in alloc; "refused {number} {name} line {line}\n")?;
    Ok(ProbeAnswer { status: 4, text })
}

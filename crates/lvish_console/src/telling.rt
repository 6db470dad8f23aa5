use crate::status::Status;
use crate::usage::UsageFault;
use crate::writing::write_text;
use clap::Error;
use clap::error::ErrorKind;
use std::alloc::Global;
use std::io::Write;

/// Help that was asked for, or why words are refused.
pub fn refusal(alloc: Global, error: &Error) -> UsageFault {
    if error.kind() == ErrorKind::OutOfMemory {
        return UsageFault::Memory;
    }
    match error.to_string(alloc) {
        Ok(text) if error.use_stderr() => UsageFault::Refused(text),
        Ok(text) => UsageFault::Help(text),
        Err(_) => UsageFault::Memory,
    }
}

/// Writes the help that was asked for. Of words that are refused the status tells.
pub fn tell_usage<W: Write>(output: &mut W, fault: UsageFault) -> Status {
    match fault {
        UsageFault::Help(text) => match write_text(output, text.as_bytes()) {
            Ok(()) => Status::Done,
            Err(_) => Status::Unwritten,
        },
        UsageFault::Refused(text) => Status::Usage(text),
        UsageFault::Memory => Status::Memory,
    }
}

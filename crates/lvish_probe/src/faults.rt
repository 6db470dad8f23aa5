//! The faults of scripts.

use crate::answer::{ProbeAnswer, done};
use lvish_script::Fault;
use std::alloc::{AllocError, Global};

const FAULTS: [Fault; 13] = [
    Fault::TooLong,
    Fault::NotAscii,
    Fault::BadLine,
    Fault::BadNumber,
    Fault::DoubleName,
    Fault::UnknownName,
    Fault::WrongKind,
    Fault::WrongCount,
    Fault::OpenBlock,
    Fault::Compatible,
    Fault::NoMain,
    Fault::TooMany,
    Fault::Memory,
];

/// The number and the name of each fault.
pub fn numbered_faults(alloc: Global) -> Result<ProbeAnswer, AllocError> {
    let mut text = String::new(alloc);
    for fault in FAULTS {
        let line = format!(in alloc; "{} {}\n", fault.number(), fault.name())?;
        text.push_str(line.as_str())?;
    }
    Ok(done(text))
}

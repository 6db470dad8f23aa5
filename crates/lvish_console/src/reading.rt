ghost use Rattle.std.specs.Prelude.{◌≡◌, IfOk, IfSome};

use std::alloc::Global;
use std::io::{ErrorKind, Read};
use thiserror::Error;

/// Why there are no bytes.
#[derive(Clone, Copy, Debug, PartialEq, Eq, Error)]
pub enum ReadFault {
    /// The reader failed.
    #[error("unreadable")]
    Unreadable,
    /// A growth was refused.
    #[error("memory")]
    Memory,
}

/// The bytes that the reader gives, all of them.
pub fn read_input<R: Read>(alloc: Global, reader: &mut R) -> Result<Vec<u8>, ReadFault>
    ensures { IfOk result (λ input. IfSome (R.remaining reader.old) (λ given. input.items ≡ given)) }
{
    let mut input = Vec::new(alloc);
    match reader.read_to_end(&mut input) {
        Ok(_) => Ok(input),
        Err(error) if error.kind() == ErrorKind::OutOfMemory => Err(ReadFault::Memory),
        Err(_) => Err(ReadFault::Unreadable),
    }
}

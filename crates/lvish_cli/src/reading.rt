ghost use Rattle.std.specs.Prelude.{◌≡◌, ◌<◌, ◌≤◌, IfOk, OnErr, IfSome, IsErrOf, length, take, vec_len};
ghost use Rattle.std.specs.Io.KnownBytes.{Consumes, IsAtEnd, Keeps};
ghost use Rattle.lvish_cli.specs.Streams.{GivesUpTo, text_seen};

use std::alloc::Global;
use std::io::{Error as IoError, Read};
use thiserror::Error;

/// The most bytes that are read: one more than a script may have, so that a longer text is noticed.
pub const MOST_READ: usize = 65_537;

/// Why no text came from a reader.
#[derive(Clone, Copy, Debug, Error)]
pub enum ReadFault {
    /// A read failed, and the system said this.
    #[error("unreadable")]
    Unreadable(IoError),
    #[error("memory")]
    Memory,
}

/// The bytes that the reader gives, to its end or to `MOST_READ` of them.
/// A read that fails is not tried again. For want of memory nothing is read.
pub fn read_text<R: Read>(alloc: Global, reader: &mut R) -> Result<Vec<u8>, ReadFault>
    ensures given { IfOk result (λ text. IfSome (R.remaining reader.old)
        (λ given. text.items ≡ text_seen given)) }
    ensures most { IfOk result (λ text. vec_len text ≤ MOST_READ) }
    ensures consumed { IfOk result (λ text.
        Consumes (R.remaining reader.old) (R.remaining reader.new) text.items) }
    ensures end { IfOk result (λ text.
        vec_len text < MOST_READ → IsAtEnd (R.remaining reader.new)) }
    ensures err { OnErr result
        (GivesUpTo MOST_READ (R.remaining reader.old) (R.remaining reader.new)) }
    ensures memory { IsErrOf result ReadFault.Memory
        → Keeps (R.remaining reader.old) (R.remaining reader.new) }
{
    read_up_to(alloc, reader, MOST_READ)
}

/// The bytes that the reader gives, to its end or to `most` of them.
fn read_up_to<R: Read>(alloc: Global, reader: &mut R, most: usize) -> Result<Vec<u8>, ReadFault>
    ensures given { IfOk result (λ text. IfSome (R.remaining reader.old)
        (λ given. text.items ≡ take most given)) }
    ensures most { IfOk result (λ text. vec_len text ≤ most) }
    ensures consumed { IfOk result (λ text.
        Consumes (R.remaining reader.old) (R.remaining reader.new) text.items) }
    ensures end { IfOk result (λ text.
        vec_len text < most → IsAtEnd (R.remaining reader.new)) }
    ensures err { OnErr result
        (GivesUpTo most (R.remaining reader.old) (R.remaining reader.new)) }
    ensures memory { IsErrOf result ReadFault.Memory
        → Keeps (R.remaining reader.old) (R.remaining reader.new) }
{
    let Ok(mut text) = vec![in alloc; 0; most] else {
        return Err(ReadFault::Memory);
    };
    let filled = fill(reader, text.as_mut_slice())?;
    text.truncate(filled);
    Ok(text)
}

/// Fills the buffer from its front until the reader ends, and answers how many bytes came.
fn fill<R: Read>(reader: &mut R, buffer: &mut [u8]) -> Result<usize, ReadFault>
    ensures most { IfOk result (λ filled. filled ≤ length buffer.new) }
    ensures consumed { IfOk result (λ filled.
        Consumes (R.remaining reader.old) (R.remaining reader.new) (take filled buffer.new)) }
    ensures end { IfOk result (λ filled.
        filled < length buffer.new → IsAtEnd (R.remaining reader.new)) }
    ensures err { OnErr result
        (GivesUpTo (length buffer.new) (R.remaining reader.old) (R.remaining reader.new)) }
    ensures unreadable { IsErrOf result ReadFault.Memory → ⊥ }
{
    let mut filled = 0;
    while filled < buffer.len() {
        match reader.read(&mut buffer[filled..]) {
            Ok(0) => break,
            Ok(count) => filled += count,
            Err(error) => return Err(ReadFault::Unreadable(error)),
        }
    }
    Ok(filled)
}

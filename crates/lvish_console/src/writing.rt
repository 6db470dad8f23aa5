ghost use Rattle.std.specs.Prelude.{OnOk, OnErr};
ghost use Rattle.std.specs.Io.KnownBytes.{Appends};
ghost use Rattle.lvish_console.specs.Writing.{TakesFront};

use std::io::Write;
use thiserror::Error;

/// The writer failed, or took none of the bytes that it was given.
#[derive(Clone, Copy, Debug, PartialEq, Eq, Error)]
#[error("unwritten")]
pub struct WriteFault;

/// Writes the whole text. No write follows one that fails or takes no byte.
pub fn write_text<W: Write>(writer: &mut W, text: &[u8]) -> Result<(), WriteFault>
    ensures ok { OnOk result (Appends (W.contents writer.old) (W.contents writer.new) text.now) }
    ensures err { OnErr result (TakesFront (W.contents writer.old) (W.contents writer.new) text.now) }
{
    let mut rest = text;
    while !rest.is_empty() {
        match writer.write(rest) {
            Ok(count) if count > 0 => rest = &rest[count..],
            _ => return Err(WriteFault),
        }
    }
    match writer.flush() {
        Ok(()) => Ok(()),
        Err(_) => Err(WriteFault),
    }
}

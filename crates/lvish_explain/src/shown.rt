//! Bytes written behind what a text has.

ghost use Rattle.std.specs.Prelude.{◌≡◌, ◌++◌, OnOk, map, replicate};
ghost use Rattle.std.specs.Fmt.{decimal, signed_decimal};
ghost use Rattle.lvish_explain.specs.Text.{shown_byte};

use std::alloc::{AllocError, Global};

/// A byte as it is shown: a space for a tab or a carriage return, `?` for another that can't be printed.
fn shown_byte(b: u8) -> u8
    ensures { result ≡ shown_byte b }
{
    if b >= 32 && b <= 126 {
        b
    } else if b == b'\t' || b == b'\r' {
        b' '
    } else {
        b'?'
    }
}

/// Bytes as they are shown.
pub fn push_shown(text: &mut Vec<u8>, bytes: &[u8]) -> Result<(), AllocError>
    ensures { OnOk result (text.new.items ≡ text.old.items ++ map shown_byte bytes.now) }
{
    for b in bytes {
        text.push(shown_byte(*b))?;
    }
    Ok(())
}

/// A byte so many times.
pub fn push_repeated(text: &mut Vec<u8>, byte: u8, times: usize) -> Result<(), AllocError>
    ensures { OnOk result (text.new.items ≡ text.old.items ++ replicate times byte) }
{
    for _time in 0..times {
        text.push(byte)?;
    }
    Ok(())
}

/// A number in decimal.
pub fn push_number(alloc: Global, text: &mut Vec<u8>, number: usize) -> Result<(), AllocError>
    ensures { OnOk result (text.new.items ≡ text.old.items ++ decimal number) }
{
    let digits = number.to_string(alloc)?;
    text.extend_from_slice(digits.as_bytes())
}

/// An integer in decimal.
pub fn push_integer(alloc: Global, text: &mut Vec<u8>, number: i64) -> Result<(), AllocError>
    ensures { OnOk result (text.new.items ≡ text.old.items ++ signed_decimal number) }
{
    let digits = number.to_string(alloc)?;
    text.extend_from_slice(digits.as_bytes())
}

/// A count in decimal.
pub fn push_count(alloc: Global, text: &mut Vec<u8>, number: u64) -> Result<(), AllocError>
    ensures { OnOk result (text.new.items ≡ text.old.items ++ decimal number) }
{
    let digits = number.to_string(alloc)?;
    text.extend_from_slice(digits.as_bytes())
}

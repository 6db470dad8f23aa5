ghost use Rattle.std.specs.Prelude.{◌≡◌, ◌++◌, ◌≤◌, ◌<◌, ◌⊎◌, IfOk, IfErr, OnOk, length, map};
ghost use Rattle.lvish_syntax.specs.declared.limits.TheConstants.{MOST_BYTES};
ghost use Rattle.lvish_format.specs.declared.fault.FormatFault.TheVariants.{TooLong};
ghost use Rattle.lvish_format.specs.Format.{pieces_of, formatted_line, ended, formatted};
ghost use Rattle.lvish_format.specs.Same.{SpellTheSame};

use crate::comment::comment_of;
use crate::fault::FormatFault;
use crate::layout::{depth_after, push_line};
use lvish_checks::{lines_of, put_words};
use lvish_syntax::MOST_BYTES;
use std::alloc::{AllocError, Global};

/// Puts the pieces of a line, its words and then its comment, in place of others.
fn put_pieces<'a>(pieces: &mut Vec<&'a [u8]>, line: &'a [u8]) -> Result<(), AllocError>
    ensures { OnOk result (map (λ w. w.now) pieces.new.items ≡ pieces_of line.now) }
{
    put_words(pieces, line)?;
    let comment = comment_of(line);
    if !comment.is_empty() {
        pieces.push(comment)?;
    }
    Ok(())
}

/// The text in one layout. It spells the same script, or has the same fault on the same line.
///
/// Any bytes may be given. A text longer than a script may be has none, and neither has one whose
/// formatted text would be longer.
pub fn format_script(alloc: Global, text: &[u8]) -> Result<Vec<u8>, FormatFault>
    ensures ok { IfOk result (λ v. v.items ≡ formatted text.now) }
    ensures fits { IfOk result (λ v. length text.now ≤ MOST_BYTES × (length v.items ≤ MOST_BYTES)) }
    ensures same { IfOk result (λ v. SpellTheSame text.now v.items) }
    ensures too_long { IfErr result (λ e. e ≡ TooLong → (MOST_BYTES < length text.now) ⊎ (MOST_BYTES < length (formatted text.now))) }
{
    if text.len() > MOST_BYTES {
        return Err(FormatFault::TooLong);
    }
    let lines = lines_of(alloc, text)?;
    let mut formatted = Vec::new(alloc);
    let mut pieces = Vec::new(alloc);
    let mut depth = 0;
    for line in lines.as_slice() {
        put_pieces(&mut pieces, line)?;
        push_line(&mut formatted, depth, pieces.as_slice())?;
        if formatted.len() > MOST_BYTES {
            return Err(FormatFault::TooLong);
        }
        depth = depth_after(depth, pieces.as_slice());
    }
    Ok(formatted)
}

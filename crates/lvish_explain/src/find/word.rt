ghost use Rattle.std.specs.Prelude.{◌≡◌};
ghost use Rattle.lvish_explain.specs.declared.reason.Reason.TheVariants.{BadNumber};

use crate::finding::Finding;
use crate::hint::Hint;
use crate::reason::Reason;
use lvish_checks::first_bad_number;

/// The first word that is a number word and no number.
pub fn bad_number<'a>(words: &[&[u8]]) -> Finding<'a>
    ensures { result.reason ≡ BadNumber }
{
    let mut place = 0;
    for k in 0..words.len() {
        if first_bad_number(None, &words[..k + 1], 1).is_some() {
            place = k;
            break;
        }
    }
    Finding {
        reason: Reason::BadNumber,
        word: place,
        hint: Hint::Text(
            "a number is an optional `-` and digits, from -9223372036854775808 to 9223372036854775807",
        ),
    }
}

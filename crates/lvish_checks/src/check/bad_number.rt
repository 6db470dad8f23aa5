ghost use Rattle.std.specs.Prelude.{◌≡◌, map, None, Some, if◌then◌else◌};
ghost use Rattle.std.specs.List.{list_any};
ghost use Rattle.std.specs.Option.{option_or};
ghost use Rattle.lvish_checks.specs.Form.{is_bad_number};

use crate::word::is_bad_number;

fn has_bad_number(words: &[&[u8]]) -> bool
    ensures { result ≡ list_any is_bad_number (map (λ w. w.now) words.now) }
{
    for word in words {
        if is_bad_number(word) {
            return true;
        }
    }
    false
}

/// The line that was found before, or else this one, where its words have a number word that is no
/// number.
pub fn first_bad_number(found: Option<usize>, words: &[&[u8]], line: usize) -> Option<usize>
    ensures { result ≡ option_or found (if list_any is_bad_number (map (λ w. w.now) words.now) then Some line else None) }
{
    if found.is_none() && has_bad_number(words) {
        Some(line)
    } else {
        found
    }
}

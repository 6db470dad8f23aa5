ghost use Rattle.std.specs.Prelude.{◌≡◌, ℕ, MatchOption, Some, slice_get};

use crate::shown::{Text, are_same};

/// The place of a text among others, `None` where it isn't there.
pub fn place_of(texts: &[Text], text: &[u8]) -> Option<usize>
    ensures { MatchOption result ((k : ℕ) → slice_get texts.now k ≡ Some text.now → ⊥) (λ k. slice_get texts.now k ≡ Some text.now) }
{
    for place in 0..texts.len() {
        if are_same(texts[place].as_slice(), text) {
            return Some(place);
        }
    }
    None
}

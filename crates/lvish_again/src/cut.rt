//! Picks without the zeros at their end.

ghost use Rattle.std.specs.Prelude.{◌≡◌, ◌≤◌, ◌<◌, ◌+◌, ℕ, length, slice_get, Some};
ghost use Rattle.lvish_again.specs.Again.{IsCutOf, EndsInZero};

/// The picks without the zeros at their end. A run whose picks are used up takes the first label, as it
/// does for a zero.
pub fn cut(mut picks: Vec<u64>) -> Vec<u64>
    ensures cut { IsCutOf picks.items result.items }
    ensures no_zero { EndsInZero result.items → ⊥ }
{
    let needed = needed(picks.as_slice());
    picks.truncate(needed);
    picks
}

/// How many picks there are up to the last that isn't a zero.
fn needed(picks: &[u64]) -> usize
    ensures within { result ≤ length picks.now }
    ensures zeros { (k : ℕ) → result ≤ k → k < length picks.now → slice_get picks.now k ≡ Some 0 }
    ensures last { (k : ℕ) → result ≡ k + 1 → slice_get picks.now k ≡ Some 0 → ⊥ }
{
    let mut needed = 0;
    for place in 0..picks.len() {
        if picks[place] != 0 {
            needed = place + 1;
        }
    }
    needed
}

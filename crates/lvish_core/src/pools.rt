ghost use Rattle.std.specs.Prelude.{◌≡◌, ◌<◌, ◌≤◌, ◌^◌, ◌-◌, ℕ, Some, IsSome, MatchOption};

use lvish_calculus::Program;

/// How many pools the program has; `None` where they are more than can be numbered.
pub(crate) fn pools_of<P: Program>(program: &P) -> Option<usize>
    ensures { MatchOption result
        ((p : ℕ) → p < 2 ^ 64 - 1 → IsSome ((P.functions program.now).pool_variable p))
        (λ n. (p v : ℕ) → (P.functions program.now).pool_variable p ≡ Some v → p < n) }
{
    for pool in 0..usize::MAX {
        if program.pool_variable(pool).is_none() {
            return Some(pool);
        }
    }
    None
}

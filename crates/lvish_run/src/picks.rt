ghost use Rattle.std.specs.Prelude.{◌≡◌, slice_get};

/// The pick for a step, by the number of steps before it; `None` when the picks are used up.
pub fn pick_at(picks: &[u64], step: usize) -> Option<u64>
    ensures { result ≡ slice_get picks.now step }
{
    picks.get(step).copied()
}

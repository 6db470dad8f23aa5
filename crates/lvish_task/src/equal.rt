//! Whether two slices are equal, without a way out at the first difference.

ghost use Rattle.std.specs.Prelude.{◌≡◌};
ghost use Rattle.std.specs.Cmp.Lexicographic.{pointwise};

/// Whether two slices are equal, element by element.
///
/// It looks at every element, past a difference too, so that several can be compared at a time.
/// Local states that are compared are equal nearly always.
pub fn are_equal<T: PartialEq>(xs: &[T], ys: &[T]) -> bool
    ensures { result ≡ pointwise T.eq xs.now ys.now }
{
    if xs.len() != ys.len() {
        return false;
    }
    let mut same = true;
    for i in 0..xs.len() {
        let here = xs[i] == ys[i];
        same = here && same;
    }
    same
}

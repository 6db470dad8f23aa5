//! What reads by a list of values have in common.

ghost use Rattle.std.specs.Prelude.{◌≡◌, ◌↔◌, IsTrue, Contains};
ghost use Rattle.std.specs.List.{list_all};
ghost use Rattle.lvish_lattice.specs.Listed.{one_of};

use crate::lattice::Plain;

/// Whether the list has at most one value, however often.
pub fn has_one_value<V: Plain>(xs: &[V]) -> bool
    ensures { IsTrue result ↔ ((x y : V) → Contains xs.now x → Contains xs.now y → x ≡ y) }
{
    match xs.first() {
        None => true,
        Some(first) => xs.iter().all(|x| *first == *x),
    }
}

/// Whether each value of the list is this one.
fn are_all<V: Plain>(x: V, xs: &[V]) -> bool
    ensures { result ≡ list_all (V.eq x) xs.now }
{
    xs.iter().all(|y| x == *y)
}

/// The one value that the list has, however often; `None` where it has none, or several.
pub fn one_of<V: Plain>(xs: &[V]) -> Option<V>
    ensures { result ≡ one_of V.eq xs.now }
{
    match xs.split_first() {
        None => None,
        Some((first, more)) => {
            if are_all(*first, more) {
                Some(*first)
            } else {
                None
            }
        }
    }
}

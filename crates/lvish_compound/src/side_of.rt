ghost use Rattle.std.specs.Prelude.{◌≡◌, ◌++◌, map, IfOk};
ghost use Rattle.lvish_compound.specs.Pair.{of_one, of_two};

use lvish_lattice::Plain;
use std::alloc::{AllocError, Global};

/// Something of the first or of the second of two parts, the first before the second.
#[derive(Clone, Copy, Debug, PartialEq, Eq, PartialOrd, Ord, Hash, Drop)]
pub enum SideOf<X, Y> {
    One(X),
    Two(Y),
}

impl<X: Plain, Y: Plain> Plain for SideOf<X, Y> {
    ghost use Rattle.std.specs.Prelude.{refl};
    ghost use Rattle.lvish_compound.specs.laws.PairLaws.{sides_identical};

    ghost identical = { sides_identical X.eq Y.eq X.identical Y.identical _ (λ x z. refl) (λ y w. refl) (λ x y. refl) (λ x y. refl) };
}

/// The events of the first side, and then those of the second.
pub(crate) fn of_sides<X: Copy, Y: Copy>(
    alloc: Global,
    ones: &[X],
    twos: &[Y],
) -> Result<Vec<SideOf<X, Y>>, AllocError>
    ensures { IfOk result (λ v. v.items ≡ map of_one ones.now ++ map of_two twos.now) }
{
    let mut sides = Vec::with_capacity(alloc, ones.len().saturating_add(twos.len()))?;
    for x in ones {
        sides.push(SideOf::One(*x))?;
    }
    for y in twos {
        sides.push(SideOf::Two(*y))?;
    }
    Ok(sides)
}

//! Pairs and triples of small values, as the events of maps.

use crate::lattice::Plain;

impl<A: Plain, B: Plain> Plain for (A, B) {
    ghost use Rattle.std.specs.Prelude.{refl};
    ghost use Rattle.lvish_lattice.specs.Plain.{pairs_identical};

    ghost identical = { pairs_identical A.eq B.eq A.identical B.identical _ (λ p q. refl) };
}

impl<A: Plain, B: Plain, C: Plain> Plain for (A, B, C) {
    ghost use Rattle.std.specs.Prelude.{refl};
    ghost use Rattle.lvish_lattice.specs.Plain.{triples_identical};

    ghost identical = { triples_identical A.eq B.eq C.eq A.identical B.identical C.identical _ (λ p q. refl) };
}

use lvish_lattice::Plain;

/// The kinds of variables of a script that have events of their own.
#[derive(Clone, Copy, Debug, PartialEq, Eq, PartialOrd, Ord, Hash)]
pub enum Kind {
    Cell,
    Set,
    Max,
    Map,
    Tally,
}

impl Plain for Kind {
    ghost use Rattle.lvish_compound.specs.laws.KindLaws.{kinds_identical};

    ghost identical = { kinds_identical };
}

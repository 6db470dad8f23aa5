ghost use Rattle.std.specs.Prelude.{◌≡◌};
ghost use Rattle.lvish_compound.specs.Places.{test_fits, fits_kind, kind_read_at};

use crate::kind::Kind;
use crate::number_test::Test;

/// Where a variable is read: as a whole, at a key of a map, at a key of a tally or in its total, or
/// at a side of a pair.
#[derive(Clone, Copy, PartialEq, Eq)]
pub enum Place {
    Cell,
    Set,
    Max,
    Key(i64),
    Amount(i64),
    Total,
    Side(u8, Kind),
}

impl Kind {
    /// Whether a side can be of this kind, and hold the numbers.
    fn fits(self, test: &Test) -> bool
        ensures { result ≡ fits_kind self test.now }
    {
        match self {
            Kind::Cell => true,
            Kind::Set => true,
            Kind::Max => test.are_levels(),
            Kind::Map => false,
            Kind::Tally => false,
        }
    }
}

impl Place {
    /// Whether there is such a place, and it can hold the numbers.
    pub(crate) fn fits(&self, test: &Test) -> bool
        ensures { result ≡ test_fits self.now test.now }
    {
        match *self {
            Place::Cell => true,
            Place::Set => true,
            Place::Max => test.are_levels(),
            Place::Key(_) => true,
            Place::Amount(_) => test.are_levels(),
            Place::Total => test.are_totals(),
            Place::Side(side, kind) => (side == 1 || side == 2) && kind.fits(test),
        }
    }

    /// The kind that is read here.
    pub(crate) fn kind(&self) -> Kind
        ensures { result ≡ kind_read_at self.now }
    {
        match *self {
            Place::Cell => Kind::Cell,
            Place::Set => Kind::Set,
            Place::Max => Kind::Max,
            Place::Key(_) => Kind::Map,
            Place::Amount(_) => Kind::Tally,
            Place::Total => Kind::Tally,
            Place::Side(_, kind) => kind,
        }
    }
}

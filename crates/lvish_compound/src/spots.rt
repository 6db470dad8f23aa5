//! Where reads of a script's variables wait.

ghost use Rattle.std.specs.Prelude.{◌≡◌, option_map};
ghost use Rattle.lvish_compound.specs.AnyWatch.{at_spot};

use crate::event::Event;
use crate::kind::Kind;
use crate::number_test::Test;
use lvish_lattice::one_of;

/// The spot of the number, if there is one.
pub(crate) fn at_spot(key: i64, kind: Kind, number: Option<i64>) -> Option<Event>
    ensures { result ≡ option_map (at_spot key kind) number }
{
    match number {
        Some(number) => Some(Event { key, kind, number }),
        None => None,
    }
}

impl Test {
    ghost use Rattle.lvish_compound.specs.AnyWatch.{number_by, one_tested};

    /// The one number that is waited for.
    fn only(&self) -> Option<i64>
        ensures { result ≡ one_tested self.now }
    {
        match self {
            Test::Any => None,
            Test::In(numbers) => one_of(numbers.as_slice()),
            Test::At(number) => Some(*number),
        }
    }

    /// The number at which events of the kind can wake a read.
    pub(crate) fn number_by(&self, kind: Kind) -> Option<i64>
        ensures { result ≡ number_by kind self.now }
    {
        match kind {
            Kind::Cell => Some(0),
            Kind::Set => self.only(),
            Kind::Max => self.only(),
            Kind::Map => None,
            Kind::Tally => self.only(),
        }
    }
}

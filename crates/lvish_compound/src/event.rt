ghost use Rattle.std.specs.Prelude.{◌≡◌};
ghost use Rattle.lvish_compound.specs.EventNames.{event_order};

use crate::kind::Kind;
use lvish_lattice::{Numbered, Plain};
use std::cmp::Ordering;

/// An event of a script's variable.
///
/// The key is the key of a map or a tally or the side of a pair, and else 0. Events are ordered by
/// key, then kind, then number.
#[derive(Clone, Copy, Debug, PartialEq, Eq, PartialOrd, Ord, Hash)]
pub struct Event {
    pub key: i64,
    pub kind: Kind,
    pub number: i64,
}

impl Event {
    /// The order of events: by key, then kind, then number.
    pub fn order(&self, other: &Event) -> Ordering
        ensures { result ≡ event_order self.now other.now }
    {
        self.cmp(other)
    }
}

impl Plain for Event {
    ghost use Rattle.std.specs.Prelude.{refl};
    ghost use Rattle.lvish_compound.specs.laws.KindLaws.{events_identical};

    ghost identical = { events_identical _ (λ d e. refl) };
}

impl Numbered for Event {
    ghost key_of = { λ e. e.key };

    ghost number_of = { λ e. e.number };

    fn key(&self) -> i64 {
        self.key
    }

    fn number(&self) -> i64 {
        self.number
    }
}

//! The keys of maps.

ghost use Rattle.std.specs.Prelude.{◌≡◌};
ghost use Rattle.lvish_compound.specs.Keys.{IsRising};

use crate::event::Event;
use crate::kind::Kind;
use crate::side_of::SideOf;
use lvish_lattice::{MaxCounter, Plain, Whole};

/// The keys of a map, of which neighbours may stand together.
pub trait Key: Plain {
    /// What the keys share that stand together.
    ghost high: { Self → Self };

    /// What the keys share that stand with this one, in the order of the keys.
    fn high(self) -> Self
        ensures { result ≡ high self };

    ghost rises: { IsRising Self.cmp high };
}

impl Key for i64 {
    ghost use Rattle.lvish_compound.specs.Keys.{int_high, int_rises};

    ghost high = { int_high };

    ghost rises = { int_rises };

    /// What up to 64 neighbours share.
    fn high(self) -> i64 {
        self >> 6
    }
}

impl<A: Plain, B: Plain> Key for (A, B) {
    ghost high = { λ x. x };

    ghost rises = { λ x y e. e };

    fn high(self) -> (A, B) {
        self
    }
}

impl<X: Plain, Y: Plain> Key for SideOf<X, Y> {
    ghost high = { λ x. x };

    ghost rises = { λ x y e. e };

    fn high(self) -> SideOf<X, Y> {
        self
    }
}

impl Key for Kind {
    ghost high = { λ x. x };

    ghost rises = { λ x y e. e };

    fn high(self) -> Kind {
        self
    }
}

impl Key for Event {
    ghost high = { λ x. x };

    ghost rises = { λ x y e. e };

    fn high(self) -> Event {
        self
    }
}

impl Key for MaxCounter {
    ghost high = { λ x. x };

    ghost rises = { λ x y e. e };

    fn high(self) -> MaxCounter {
        self
    }
}

impl Key for Whole {
    ghost high = { λ x. x };

    ghost rises = { λ x y e. e };

    fn high(self) -> Whole {
        self
    }
}

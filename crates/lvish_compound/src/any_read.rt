ghost use Rattle.std.specs.Prelude.{◌≡◌, ◌↔◌, pos, true, IfOk, IsOk, IsErr, IsTrue};
ghost use Rattle.lvish_compound.specs.Places.{test_fits, IsApart};
ghost use Rattle.lvish_compound.specs.Refusals.{IsReadRefused};

use crate::any::Any;
use crate::event::Event;
use crate::kind::Kind;
use crate::number_test::Test;
use crate::part::Part;
use crate::place::Place;
use crate::spots::at_spot;
use lvish_lattice::{Flat, Range, Reads};

/// A read of a script's variable.
pub struct AnyRead {
    pub place: Place,
    pub test: Test,
    pub ghost fits: { test_fits place test ≡ true },
}

// Written out, so that it is proved once, and not at each exit of a function that owns one.
impl Drop for AnyRead {
    fn drop(self) {
        let AnyRead { place: _, test: _ } = self;
    }
}

impl AnyRead {
    ghost use Rattle.lvish_compound.specs.AnyReads.{place_of, test_of};

    /// The read of a place by a test.
    ///
    /// Refused where a number of a counter or an amount is outside 0 to `HIGHEST_LEVEL`, or a
    /// total outside 0 to `HIGHEST_TOTAL`, and where a side isn't 1 or 2 or is of another kind than cell, set or max.
    pub fn new(place: Place, test: Test) -> Result<AnyRead, Range>
        ensures place { IfOk result (λ r. place_of r ≡ place) }
        ensures test { IfOk result (λ r. test_of r ≡ test) }
        ensures accepts { IsOk result ↔ IsTrue (test_fits place test) }
        ensures refused { IsErr result ↔ IsReadRefused place test }
    {
        if !place.fits(&test) {
            return Err(Range);
        }
        Ok(AnyRead { place, test })
    }
}

/// Whether any two states of the kind that stand for different numbers of the test join to top.
fn is_apart(kind: Kind, test: &Test) -> bool
    ensures { IsTrue result ↔ IsApart kind test.now }
{
    match kind {
        Kind::Cell => true,
        Kind::Set => test.has_one(),
        Kind::Max => test.has_one(),
        Kind::Map => true,
        Kind::Tally => test.has_one(),
    }
}

impl Test {
    ghost use Rattle.lvish_compound.specs.StateReads.{part_answer, side_in};
    ghost use Rattle.lvish_compound.specs.MapOf.{at};
    ghost use Rattle.lvish_compound.specs.Numbers.{cell_answer, first_that, is_reached};
    ghost use Rattle.lvish_compound.specs.States.{part_in, map_in, tally_in};
    ghost use Rattle.lvish_compound.specs.Tally.{amount, total};
    ghost use Rattle.lvish_lattice.specs.MaxCounter.{number_of};

    /// The answer in a part.
    fn in_part(&self, kind: Kind, part: &Part) -> Option<i64>
        ensures { result ≡ part_answer kind self.now part.now }
    {
        match kind {
            Kind::Cell => match part {
                Part::Cell(value) => self.in_cell(*value),
                _ => None,
            },
            Kind::Set => match part {
                Part::Set(set) => self.in_set(&set.state),
                _ => None,
            },
            Kind::Max => match part {
                Part::Max(max) => self.in_max(max.state.get()),
                _ => self.in_max(0),
            },
            Kind::Map => None,
            Kind::Tally => None,
        }
    }

    /// The answer in a state that is a part.
    fn in_state(&self, kind: Kind, state: &Any) -> Option<i64>
        ensures { result ≡ part_answer kind self.now (part_in state.now) }
    {
        match state {
            Any::Part(part) => self.in_part(kind, part),
            _ => self.in_part(kind, &Part::Empty),
        }
    }

    /// The answer in one of two sides.
    fn in_side(&self, number: u8, kind: Kind, state: &Any) -> Option<i64>
        ensures { result ≡ part_answer kind self.now (side_in number state.now) }
    {
        match state {
            Any::Sides(sides) => {
                let pair = sides.pair();
                if number == 1 {
                    self.in_part(kind, &pair.one)
                } else {
                    self.in_part(kind, &pair.two)
                }
            }
            _ => self.in_part(kind, &Part::Empty),
        }
    }

    /// The answer at a key.
    // Apart, so that reads of other places save no registers for its search.
    #[inline(never)]
    fn in_entry(&self, key: i64, state: &Any) -> Option<i64>
        ensures { result ≡ cell_answer self.now (at (map_in state.now) key) }
    {
        match state {
            Any::Map(map) => match map.state.get(key) {
                Some(Flat::Value(value)) => self.in_cell(*value),
                _ => None,
            },
            _ => None,
        }
    }

    /// The answer to the amount of a key.
    fn in_amount(&self, key: i64, state: &Any) -> Option<i64>
        ensures { result ≡ first_that (is_reached (number_of (amount (tally_in state.now) key))) self.now }
    {
        match state {
            Any::Tally(tally) => self.in_max(tally.state.amount(key).get()),
            _ => self.in_max(0),
        }
    }

    /// The answer to the total, which the tally keeps, so nothing is summed here.
    fn in_total(&self, state: &Any) -> Option<i64>
        ensures { result ≡ first_that (is_reached (pos (total (tally_in state.now)))) self.now }
    {
        match state {
            Any::Tally(tally) => self.in_max(tally.state.total()),
            _ => self.in_max(0),
        }
    }
}

impl Reads for Any {
    ghost use Rattle.lvish_compound.specs.AnyReads.{Member, answer_of};
    ghost use Rattle.lvish_compound.specs.AnyWatch.{spot_of, watched};

    type Read = AnyRead;

    type Answer = i64;

    type Spot = Event;

    ghost member = { Member };

    ghost answer_of = { answer_of };

    ghost spot_of = { spot_of };

    ghost watched = { watched };

    fn check(read: &AnyRead) -> bool {
        is_apart(read.place.kind(), &read.test)
    }

    fn trigger(read: &AnyRead, state: &Any) -> Option<i64> {
        match read.place {
            Place::Cell => read.test.in_state(Kind::Cell, state),
            Place::Set => read.test.in_state(Kind::Set, state),
            Place::Max => read.test.in_state(Kind::Max, state),
            Place::Key(key) => read.test.in_entry(key, state),
            Place::Amount(key) => read.test.in_amount(key, state),
            Place::Total => read.test.in_total(state),
            Place::Side(number, kind) => read.test.in_side(number, kind, state),
        }
    }

    fn spot(event: &Event) -> Event {
        Event {
            key: event.key,
            kind: event.kind,
            number: match event.kind {
                Kind::Cell => 0,
                Kind::Set => event.number,
                Kind::Max => event.number,
                Kind::Map => 0,
                Kind::Tally => event.number,
            },
        }
    }

    fn watch(read: &AnyRead) -> Option<Event> {
        match read.place {
            Place::Cell => at_spot(0, Kind::Cell, read.test.number_by(Kind::Cell)),
            Place::Set => at_spot(0, Kind::Set, read.test.number_by(Kind::Set)),
            Place::Max => at_spot(0, Kind::Max, read.test.number_by(Kind::Max)),
            Place::Key(key) => Some(Event {
                key,
                kind: Kind::Map,
                number: 0,
            }),
            Place::Amount(key) => at_spot(key, Kind::Tally, read.test.number_by(Kind::Tally)),
            Place::Total => None,
            Place::Side(number, kind) => {
                at_spot(
                    if number == 1 { 1 } else { 2 },
                    kind,
                    read.test.number_by(kind),
                )
            }
        }
    }

    ghost use Rattle.std.specs.Prelude.{refl};
    ghost use Rattle.lvish_compound.specs.laws.StateEvents.{by_name};
    ghost use Rattle.lvish_compound.specs.laws.WatchLaws.{any_waits};

    ghost waits = { any_waits ⟦<Event as PartialEq>⟧.eq (by_name _ (λ d e. refl)) };

    ghost use Rattle.lvish_compound.specs.laws.AnyReadLaws.{any_answers};

    ghost answers = { any_answers };
}

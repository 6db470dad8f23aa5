ghost use Rattle.std.specs.Prelude.{◌≡◌, ◌≤◌, ◌^◌, false, IfOk, IfErr, MatchOption, is_some, length, unwrap_or};
ghost use Rattle.lvish_compound.specs.Pair.{events_of};
ghost use Rattle.lvish_compound.specs.Parts.{no_sides, pairs_joined, events_of as parts_events};

use crate::pair::Pair;
use crate::part::Part;
use lvish_lattice::Lattice;
use std::alloc::{AllocError, Global};

/// A pair of parts that aren't both empty.
#[derive(Debug, Drop)]
pub struct Sides {
    pair: Pair<Part, Part>,
    ghost rises: { no_sides pair ≡ false },
}

impl Sides {
    ghost use Rattle.lvish_compound.specs.Sides.{above, pair_of};

    /// The pair, unless both sides are empty.
    pub fn of(pair: Pair<Part, Part>) -> Option<Sides>
        ensures { result ≡ above pair }
    {
        if pair.one.is_empty() && pair.two.is_empty() {
            None
        } else {
            Some(Sides { pair })
        }
    }

    pub fn pair(&self) -> &Pair<Part, Part>
        ensures { result.now ≡ pair_of self.now }
    {
        &self.pair
    }

    /// How many events there are, `None` where there are more than can be counted.
    pub fn event_count(&self) -> Option<usize>
        ensures { MatchOption result (2 ^ 64 ≤ length (events_of parts_events parts_events (pair_of self.now))) (λ n. n ≡ length (events_of parts_events parts_events (pair_of self.now))) }
    {
        let ones = self.pair.one.event_count();
        ones.checked_add(self.pair.two.event_count())
    }

    pub fn copy(&self, alloc: Global) -> Result<Sides, AllocError>
        ensures { IfOk result (λ r. r ≡ self.now) }
    {
        Ok(Sides {
            pair: self.pair.copy(alloc)?,
        })
    }

    /// Joins a pair to this one in place, as `Lattice::merge` does.
    pub fn merge(&mut self, alloc: Global, put: &Sides) -> Result<bool, AllocError>
        ensures merged { IfOk result (λ b. (b ≡ is_some (pairs_joined (pair_of self.old) (pair_of put.now))) × (pair_of self.new ≡ unwrap_or (pairs_joined (pair_of self.old) (pair_of put.now)) (pair_of self.old))) }
        ensures refused { IfErr result (λ _. self.new ≡ self.old) }
    {
        self.pair.merge(alloc, &put.pair)
    }
}

impl PartialEq for Sides {
    ghost use Rattle.std.specs.Cmp.{partial_equiv_from_equiv};
    ghost use Rattle.lvish_compound.specs.Sides.{alike};
    ghost use Rattle.lvish_compound.specs.laws.SidesLaws.{alike_equiv};

    ghost eq = { alike };

    ghost laws = { partial_equiv_from_equiv alike_equiv };

    fn eq(&self, other: &Sides) -> bool {
        self.pair == other.pair
    }
}

impl Eq for Sides {
    ghost use Rattle.lvish_compound.specs.laws.SidesLaws.{alike_equiv};

    ghost laws = { alike_equiv };
}

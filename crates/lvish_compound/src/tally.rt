ghost use Rattle.std.specs.Prelude.{◌≡◌, ◌≤◌, IfOk, pos, map, length, true};
ghost use Rattle.std.specs.List.Sorted.{IsStrictlySortedBy};
ghost use Rattle.std.specs.Ordering.{int_cmp};
ghost use Rattle.lvish_compound.specs.declared.limits.TheConstants.{HIGHEST_TOTAL};
ghost use Rattle.lvish_compound.specs.Amounts.{total_of, gain};
ghost use Rattle.lvish_compound.specs.Keyed.{key, has_no, single_entry};
ghost use Rattle.lvish_lattice.specs.MaxCounter.{level, zero};
ghost use Rattle.lvish_compound.specs.MapOf as map_of;

use crate::entry_iter::EntryIter;
use crate::limits::HIGHEST_TOTAL;
use crate::map_of::MapOf;
use lvish_lattice::{Lattice, MaxCounter};
use std::alloc::{AllocError, Global};

/// A map from keys to amounts that only grows, and whose amounts add up to at most `HIGHEST_TOTAL`.
///
/// No key has the amount 0. The total is kept beside the amounts, and grows with them.
#[derive(Debug)]
pub struct Tally {
    amounts: MapOf<i64, MaxCounter>,
    total: u16,
    ghost counted: { total ≡ total_of (map_of.entries_of amounts) },
    ghost bounded: { total ≤ HIGHEST_TOTAL },
}

// Written out, so that it is proved once, and not at each exit of a function that owns one.
impl Drop for Tally {
    fn drop(self) {
        let Tally {
            amounts: _,
            total: _,
        } = self;
    }
}

/// The number of an amount.
pub(crate) fn level_of(amount: MaxCounter) -> u16
    ensures { result ≡ level amount }
{
    amount.get() as u16
}

impl Tally {
    ghost use Rattle.lvish_compound.specs.Tally.{entries_of, events_of, amount_test, amount, total};

    /// The map of one key and its amount, empty where that is 0.
    pub fn one(alloc: Global, key: i64, amount: MaxCounter) -> Result<Tally, AllocError>
        ensures { IfOk result (λ t. entries_of t ≡ single_entry amount_test zero key amount) }
    {
        let amounts = MapOf::one(alloc, key, amount)?;
        Ok(Tally {
            amounts,
            total: level_of(amount),
        })
    }

    /// The sum of the amounts.
    pub fn total(&self) -> i64
        ensures { result ≡ pos (total self.now) }
    {
        i64::from(self.total)
    }

    /// How many events there are.
    pub fn event_count(&self) -> usize
        ensures { result ≡ length (events_of self.now) }
    {
        usize::from(self.total)
    }

    /// The amount of the key, 0 where it has no entry.
    pub fn amount(&self, key: i64) -> MaxCounter
        ensures { result ≡ amount self.now key }
    {
        match self.amounts.get(key) {
            Some(amount) => *amount,
            None => MaxCounter::bottom(self.amounts.alloc()),
        }
    }

    /// The entries in the order of their keys. No amount is 0.
    pub fn entries(&self) -> EntryIter<'_, i64, MaxCounter>
        ensures same { result ≡ entries_of self.now }
        ensures ascending { IsStrictlySortedBy int_cmp (map key (entries_of self.now)) }
        ensures above { has_no amount_test zero (entries_of self.now) ≡ true }
    {
        self.amounts.entries()
    }

    /// How much the total grows where the other is joined to this.
    fn gain(&self, put: &Tally) -> u16
        ensures same { result ≡ gain (entries_of self.now) (entries_of put.now) }
        ensures within { result ≤ HIGHEST_TOTAL }
    {
        let mut gained: u16 = 0;
        for (key, amount) in put.entries() {
            gained += level_of(*amount).saturating_sub(level_of(self.amount(*key)));
        }
        gained
    }
}

impl PartialEq for Tally {
    ghost use Rattle.std.specs.Cmp.{partial_equiv_from_equiv};
    ghost use Rattle.lvish_compound.specs.Tally.{alike};
    ghost use Rattle.lvish_compound.specs.laws.TallyLaws.{alike_equiv};

    ghost eq = { alike };

    ghost laws = { partial_equiv_from_equiv alike_equiv };

    fn eq(&self, other: &Tally) -> bool {
        self.amounts == other.amounts
    }
}

impl Eq for Tally {
    ghost use Rattle.lvish_compound.specs.laws.TallyLaws.{alike_equiv};

    ghost laws = { alike_equiv };
}

impl Lattice for Tally {
    ghost use Rattle.lvish_compound.specs.Tally.{empty, joined, events_of};

    type Event = (i64, i64);

    ghost least = { empty };

    ghost joined = { joined };

    ghost events_of = { events_of };

    fn bottom(alloc: Global) -> Tally {
        Tally {
            amounts: MapOf::new(alloc),
            total: 0,
        }
    }

    fn join(&self, alloc: Global, other: &Tally) -> Result<Option<Tally>, AllocError> {
        let total = self.total + self.gain(other);
        if total > HIGHEST_TOTAL {
            return Ok(None);
        }
        match self.amounts.join(alloc, &other.amounts)? {
            Some(amounts) => Ok(Some(Tally { amounts, total })),
            None => Ok(None),
        }
    }

    fn leq(&self, other: &Tally) -> bool {
        self.amounts.leq(&other.amounts)
    }

    fn events(&self, alloc: Global) -> Result<Vec<(i64, i64)>, AllocError> {
        self.amounts.events(alloc)
    }

    fn fresh(alloc: Global, old: &Tally, put: &Tally) -> Result<Vec<(i64, i64)>, AllocError> {
        if old.total + old.gain(put) > HIGHEST_TOTAL {
            return Ok(Vec::new(alloc));
        }
        MapOf::fresh(alloc, &old.amounts, &put.amounts)
    }

    fn copy(&self, alloc: Global) -> Result<Tally, AllocError> {
        Ok(Tally {
            amounts: self.amounts.copy(alloc)?,
            total: self.total,
        })
    }

    fn merge(&mut self, alloc: Global, put: &Tally) -> Result<bool, AllocError> {
        let total = self.total + self.gain(put);
        if total > HIGHEST_TOTAL {
            return Ok(false);
        }
        let merged = self.amounts.merge(alloc, &put.amounts)?;
        if merged {
            self.total = total;
        }
        Ok(merged)
    }

    ghost use Rattle.lvish_compound.specs.laws.TallyLaws.{alike_identical, tally_is_join, tally_has_events};

    ghost identical = { alike_identical };

    ghost is_join = { tally_is_join };

    ghost has_events = { tally_has_events };
}

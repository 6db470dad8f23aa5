ghost use Rattle.std.specs.Prelude.{◌≡◌, IfOk, OnOk, [], ◌∷◌, ◌==◌, length, slice_get, List, MatchOption};
ghost use Rattle.std.specs.Cmp.Lexicographic.{pointwise};
ghost use Rattle.lvish_compound.specs.declared.event.Event.{Event};
ghost use Rattle.lvish_task.specs.Remaining.{events_in, shared_events};

use crate::equal::are_equal;
use lvish_compound::{Event, Kind};
use std::alloc::{AllocError, Global};
use std::marker::Model;
use std::sync::Arc;

/// Events that local states share.
///
/// Those of a set, a cell or a counter differ in their numbers alone. Then only the numbers are kept,
/// which take a third of the room and can be compared several at a time.
pub enum Shared {
    /// Of this key and kind, with these numbers.
    Alike(i64, Kind, Vec<i64>),
    /// Of several keys or kinds.
    Mixed(Vec<Event>),
}

// Written out, so that it is proved once, and not at each exit of a function that owns one.
impl Drop for Shared {
    fn drop(self) {
        match self {
            Shared::Alike(_, _, _) => {}
            Shared::Mixed(_) => {}
        }
    }
}

impl Shared {
    /// These events, the first of which is this one.
    fn of(alloc: Global, first: Event, events: Vec<Event>) -> Result<Shared, AllocError>
        ensures { IfOk result (λ s. events_in s ≡ events.items) }
    {
        let Event { key, kind, .. } = first;
        let mut numbers = Vec::with_capacity(alloc, events.len())?;
        for event in events.iter() {
            if event.key != key || event.kind != kind {
                return Ok(Shared::Mixed(events));
            }
            numbers.push(event.number)?;
        }
        Ok(Shared::Alike(key, kind, numbers))
    }

    /// How many there are.
    fn len(&self) -> usize
        ensures { result ≡ length (events_in self.now) }
    {
        match self {
            Shared::Alike(_, _, numbers) => numbers.len(),
            Shared::Mixed(events) => events.len(),
        }
    }

    /// The event at this place.
    fn at(&self, place: usize) -> Option<Event>
        ensures { result ≡ slice_get (events_in self.now) place }
    {
        match self {
            Shared::Alike(key, kind, numbers) => {
                let number = *numbers.get(place)?;
                Some(Event {
                    key: *key,
                    kind: *kind,
                    number,
                })
            }
            Shared::Mixed(events) => events.get(place).copied(),
        }
    }
}

/// The events on which an `each` hasn't called its procedure yet.
///
/// Copies share them.
pub struct Remaining {
    all: Option<Arc<Shared>>,
    next: usize,
}

// Written out, so that it is proved once, and not at each exit of a function that owns one.
impl Drop for Remaining {
    #[inline(always)]
    fn drop(self) {
        let Remaining { all: _, next: _ } = self;
    }
}

impl Model for Remaining {
    ghost use Rattle.std.specs.Prelude.{List, ◌≤◌, length, drop};
    ghost use Rattle.lvish_compound.specs.declared.event.Event.{Event};
    ghost use Rattle.lvish_task.specs.Remaining.{shared_events};

    ghost Value = { List Event };

    ghost view = { λ r. drop r.next (shared_events r.all) };

    ghost invariant = { λ r. r.next ≤ length (shared_events r.all) };
}

impl PartialEq for Remaining {
    ghost use Rattle.std.specs.Cmp.Lexicographic.{lists_per, pointwise};
    ghost use Rattle.lvish_compound.specs.contracts.event.EventPartialEq.TheImpl.Laws.{laws-law};

    ghost eq = { pointwise ⟦<Event as PartialEq>⟧.eq };

    ghost laws = { lists_per laws-law };

    #[inline(always)]
    fn eq(&self, other: &Remaining) -> bool {
        match (&self.all, &other.all) {
            (None, None) => true,
            _ => self.is_same(other),
        }
    }
}

impl Eq for Remaining {
    ghost use Rattle.std.specs.Cmp.Lexicographic.{lists_equiv};
    ghost use Rattle.lvish_compound.specs.contracts.event.EventEq.TheImpl.Laws.{laws-law};

    ghost laws = { lists_equiv laws-law };
}

impl Remaining {
    /// No events.
    #[inline(always)]
    pub fn new() -> Remaining
        ensures { result ≡ [] }
    {
        Remaining { all: None, next: 0 }
    }

    /// These events.
    ///
    /// # Errors
    ///
    /// Where there is no room for them.
    pub fn of(alloc: Global, events: Vec<Event>) -> Result<Remaining, AllocError>
        ensures { IfOk result (λ r. r ≡ events.items) }
    {
        let Some(first) = events.first().copied() else {
            return Ok(Remaining::new());
        };
        let all = Some(Arc::new(alloc, Shared::of(alloc, first, events)?)?);
        Ok(Remaining { all, next: 0 })
    }

    /// How many are left.
    #[inline(always)]
    fn len(&self) -> usize
        ensures { result ≡ length self.now }
    {
        match &self.all {
            None => 0,
            Some(all) => all.len() - self.next,
        }
    }

    /// The event at this place among those that are left.
    fn at(&self, place: usize) -> Option<Event>
        ensures { result ≡ slice_get self.now place }
    {
        match &self.all {
            None => None,
            Some(all) => all.at(self.next.checked_add(place)?),
        }
    }

    /// Whether the two are equal: by their numbers alone, where those are alike.
    #[inline(never)]
    fn is_same(&self, other: &Remaining) -> bool
        ensures { result ≡ pointwise ⟦<Event as PartialEq>⟧.eq self.now other.now }
    {
        let (Some(all), Some(others)) = (&self.all, &other.all) else {
            return self.is_equal(other);
        };
        match (&**all, &**others) {
            (Shared::Alike(key, kind, numbers), Shared::Alike(other_key, other_kind, others))
                if key == other_key && kind == other_kind => {
                are_equal(
                    &numbers.as_slice()[self.next..],
                    &others.as_slice()[other.next..],
                )
            }
            _ => self.is_equal(other),
        }
    }

    /// Whether the two are equal, event by event, however each of them is kept.
    fn is_equal(&self, other: &Remaining) -> bool
        ensures { result ≡ pointwise ⟦<Event as PartialEq>⟧.eq self.now other.now }
    {
        if self.len() != other.len() {
            return false;
        }
        for place in 0..self.len() {
            if self.at(place) != other.at(place) {
                return false;
            }
        }
        true
    }

    /// Whether there is none.
    #[inline(always)]
    pub fn is_empty(&self) -> bool
        ensures { result ≡ (length self.now == 0) }
    {
        self.len() == 0
    }

    /// The first event.
    #[inline(always)]
    pub fn first(&self) -> Option<Event>
        ensures { MatchOption result (self.now ≡ []) (λ e. (more : List Event) × (self.now ≡ e ∷ more)) }
    {
        self.at(0)
    }

    /// The first event, which is then no longer there.
    pub fn take(&mut self) -> Option<Event>
        ensures { MatchOption result ((self.old ≡ []) × (self.new ≡ [])) (λ e. self.old ≡ e ∷ self.new) }
    {
        let first = self.first()?;
        self.next += 1;
        Some(first)
    }

    /// Becomes equal to the other, with which it shares the events.
    ///
    /// # Errors
    ///
    /// Where more share them than can be counted.
    #[inline(always)]
    pub fn copy_from(&mut self, other: &Remaining) -> Result<(), AllocError>
        ensures { OnOk result (self.new ≡ other.now) }
    {
        match (&self.all, &other.all) {
            (None, None) => Ok(()),
            _ => self.share(other),
        }
    }

    /// The same, whether there are events or none.
    ///
    /// It isn't inlined, since most frames have none.
    #[inline(never)]
    fn share(&mut self, other: &Remaining) -> Result<(), AllocError>
        ensures { OnOk result (self.new ≡ other.now) }
    {
        *self = other.copy()?;
        Ok(())
    }

    /// The same events, which both share.
    #[inline(always)]
    pub fn copy(&self) -> Result<Remaining, AllocError>
        ensures { IfOk result (λ r. r ≡ self.now) }
    {
        Ok(Remaining {
            all: match &self.all {
                None => None,
                Some(all) => Some(all.clone()?),
            },
            next: self.next,
        })
    }
}

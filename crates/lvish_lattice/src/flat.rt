ghost use Rattle.std.specs.Prelude.{◌≡◌};
ghost use Rattle.std.specs.List.{list_any};

use crate::brought::Brought;
use crate::lattice::{Lattice, Plain, Reads};
use lvish_base::Items;
use std::alloc::{AllocError, Global};
use std::hash::Hash;

/// Nothing, or one value that is written once.
#[derive(Clone, Copy, Debug, PartialEq, Eq)]
pub enum Flat<V> {
    Bottom,
    Value(V),
}

/// Where a cell is read: as a whole.
#[derive(Clone, Copy, Debug, PartialEq, Eq, PartialOrd, Ord, Hash)]
pub struct Whole;

impl Plain for Whole {
    ghost use Rattle.std.specs.Prelude.{refl};

    ghost identical = { λ x y e. refl };
}

/// What is waited for: any value, or one of a list.
#[derive(Drop)]
pub enum FlatRead<V> {
    Any,
    In(Items<V>),
}

/// Whether a list has a value.
fn has<V: Plain>(xs: &[V], x: V) -> bool
    ensures { result ≡ list_any (V.eq x) xs.now }
{
    xs.iter().any(|y| x == *y)
}

impl<V: Plain + Hash> Lattice for Flat<V> {
    ghost use Rattle.lvish_lattice.specs.declared.flat.Flat.TheVariants.{Bottom, Value};
    ghost use Rattle.lvish_lattice.specs.Flat.{joined, events_of};

    type Event = V;

    ghost least = { Bottom };

    ghost joined = { joined V.eq };

    ghost events_of = { events_of };

    fn bottom(_alloc: Global) -> Flat<V> {
        Flat::Bottom
    }

    fn join(&self, _alloc: Global, other: &Flat<V>) -> Result<Option<Flat<V>>, AllocError> {
        match (*self, *other) {
            (Flat::Bottom, b) => Ok(Some(b)),
            (a, Flat::Bottom) => Ok(Some(a)),
            (Flat::Value(x), Flat::Value(y)) => {
                if x == y {
                    Ok(Some(Flat::Value(x)))
                } else {
                    Ok(None)
                }
            }
        }
    }

    fn leq(&self, other: &Flat<V>) -> bool {
        match (*self, *other) {
            (Flat::Bottom, _) => true,
            (Flat::Value(_), Flat::Bottom) => false,
            (Flat::Value(x), Flat::Value(y)) => x == y,
        }
    }

    fn events(&self, alloc: Global) -> Result<Vec<V>, AllocError> {
        let mut events = Vec::new(alloc);
        if let Flat::Value(x) = self {
            events.push(*x)?;
        }
        Ok(events)
    }

    fn fresh(alloc: Global, old: &Flat<V>, put: &Flat<V>) -> Result<Vec<V>, AllocError> {
        match (*old, *put) {
            (Flat::Bottom, Flat::Value(_)) => put.events(alloc),
            _ => Ok(Vec::new(alloc)),
        }
    }

    fn merge_one(&mut self, _alloc: Global, put: &Flat<V>) -> Result<Brought<V>, AllocError> {
        match (*self, *put) {
            (Flat::Bottom, Flat::Value(x)) => {
                *self = *put;
                Ok(Brought::One(x))
            }
            (Flat::Value(x), Flat::Value(y)) => {
                if x == y {
                    Ok(Brought::Nothing)
                } else {
                    Ok(Brought::Top)
                }
            }
            _ => Ok(Brought::Nothing),
        }
    }

    fn copy(&self, _alloc: Global) -> Result<Flat<V>, AllocError> {
        Ok(*self)
    }

    ghost use Rattle.std.specs.Prelude.{refl};
    ghost use Rattle.lvish_lattice.specs.laws.FlatLaws.{flat_identical, flat_is_join, flat_has_events};

    ghost identical = { flat_identical V.eq V.identical _ (λ y. refl) (λ x. refl) (λ x y. refl) };

    ghost is_join = { flat_is_join V.eq V.identical V.Eq.laws };

    ghost has_events = { flat_has_events V.eq V.identical V.Eq.laws V.cmp };
}

impl<V: Plain + Hash> Reads for Flat<V> {
    ghost use Rattle.lvish_lattice.specs.Flat.{Member, answer_of, spot_of, watched};

    type Read = FlatRead<V>;

    type Answer = V;

    type Spot = Whole;

    ghost member = { Member };

    ghost answer_of = { answer_of V.eq };

    ghost spot_of = { spot_of };

    ghost watched = { watched };

    fn check(_read: &FlatRead<V>) -> bool {
        true
    }

    fn trigger(read: &FlatRead<V>, state: &Flat<V>) -> Option<V> {
        match state {
            Flat::Bottom => None,
            Flat::Value(x) => match read {
                FlatRead::Any => Some(*x),
                FlatRead::In(xs) => {
                    if has(xs.as_slice(), *x) {
                        Some(*x)
                    } else {
                        None
                    }
                }
            },
        }
    }

    fn spot(_event: &V) -> Whole {
        Whole
    }

    fn watch(_read: &FlatRead<V>) -> Option<Whole> {
        Some(Whole)
    }

    ghost use Rattle.lvish_lattice.specs.laws.FlatLaws.{flat_answers, flat_waits};

    ghost waits = { flat_waits V.eq V.identical V.Eq.laws };

    ghost answers = { flat_answers V.eq V.identical V.Eq.laws };
}

ghost use Rattle.std.specs.Prelude.{◌≡◌, [], IfOk, length};
ghost use Rattle.lvish_compound.specs.declared.part.Part.TheVariants.{Empty, Set, Max};
ghost use Rattle.lvish_compound.specs.Held.{held};
ghost use Rattle.lvish_compound.specs.Parts.{events_of, is_empty};
ghost use Rattle.lvish_compound.specs.Pair.{sides};

use crate::above::Above;
use crate::side_of::{SideOf, of_sides};
use crate::tally::level_of;
use lvish_lattice::{GrowSet, Lattice, MaxCounter};
use std::alloc::{AllocError, Global};

/// A side of a pair of a script: empty, or a cell, a set or a counter above its bottom.
///
/// Different kinds join to top.
#[derive(Debug)]
pub enum Part {
    Empty,
    Cell(i64),
    Set(Above<GrowSet<i64>>),
    Max(Above<MaxCounter>),
}

/// An event of a part: of a cell, a set or a counter.
pub type PartEvent = SideOf<i64, SideOf<i64, i64>>;

// Written out, so that it is proved once, and not at each exit of a function that owns one.
impl Drop for Part {
    fn drop(self) {
        match self {
            Part::Empty => {}
            Part::Cell(_) => {}
            Part::Set(_) => {}
            Part::Max(_) => {}
        }
    }
}

impl Part {
    /// A set, empty where it has no element.
    pub fn of_set(alloc: Global, set: GrowSet<i64>) -> Part
        ensures { result ≡ held Set Empty set }
    {
        match Above::of(alloc, set) {
            Some(set) => Part::Set(set),
            None => Part::Empty,
        }
    }

    /// A counter, empty at 0.
    pub fn of_max(alloc: Global, max: MaxCounter) -> Part
        ensures { result ≡ held Max Empty max }
    {
        match Above::of(alloc, max) {
            Some(max) => Part::Max(max),
            None => Part::Empty,
        }
    }

    pub fn is_empty(&self) -> bool
        ensures { result ≡ is_empty self.now }
    {
        match self {
            Part::Empty => true,
            _ => false,
        }
    }

    /// How many events there are.
    pub fn event_count(&self) -> usize
        ensures { result ≡ length (events_of self.now) }
    {
        match self {
            Part::Empty => 0,
            Part::Cell(_) => 1,
            Part::Set(a) => a.state.len(),
            Part::Max(a) => usize::from(level_of(a.state)),
        }
    }
}

/// The events of a set.
fn set_events(alloc: Global, numbers: &[i64]) -> Result<Vec<PartEvent>, AllocError>
    ensures { IfOk result (λ v. v.items ≡ sides [] (sides numbers.now [])) }
{
    let events = of_sides(alloc, numbers, &[])?;
    of_sides(alloc, &[], &events)
}

/// The events of a counter.
fn max_events(alloc: Global, numbers: &[i64]) -> Result<Vec<PartEvent>, AllocError>
    ensures { IfOk result (λ v. v.items ≡ sides [] (sides [] numbers.now)) }
{
    let events = of_sides(alloc, &[], numbers)?;
    of_sides(alloc, &[], &events)
}

impl PartialEq for Part {
    ghost use Rattle.std.specs.Cmp.{partial_equiv_from_equiv};
    ghost use Rattle.lvish_compound.specs.Parts.{alike};
    ghost use Rattle.lvish_compound.specs.laws.PartLaws.{alike_equiv};

    ghost eq = { alike };

    ghost laws = { partial_equiv_from_equiv alike_equiv };

    fn eq(&self, other: &Part) -> bool {
        match (self, other) {
            (Part::Empty, Part::Empty) => true,
            (Part::Cell(a), Part::Cell(b)) => *a == *b,
            (Part::Set(a), Part::Set(b)) => a.state == b.state,
            (Part::Max(a), Part::Max(b)) => a.state == b.state,
            _ => false,
        }
    }
}

impl Eq for Part {
    ghost use Rattle.lvish_compound.specs.laws.PartLaws.{alike_equiv};

    ghost laws = { alike_equiv };
}

impl Lattice for Part {
    ghost use Rattle.lvish_compound.specs.Parts.{joined, events_of};

    type Event = PartEvent;

    ghost least = { Empty };

    ghost joined = { joined };

    ghost events_of = { events_of };

    fn bottom(_alloc: Global) -> Part {
        Part::Empty
    }

    fn join(&self, alloc: Global, other: &Part) -> Result<Option<Part>, AllocError> {
        match (self, other) {
            (Part::Empty, state) => Ok(Some(state.copy(alloc)?)),
            (state, Part::Empty) => Ok(Some(state.copy(alloc)?)),
            (Part::Cell(a), Part::Cell(b)) => {
                if *a == *b {
                    Ok(Some(Part::Cell(*a)))
                } else {
                    Ok(None)
                }
            }
            (Part::Set(a), Part::Set(b)) => match a.state.join(alloc, &b.state)? {
                Some(set) => Ok(Some(Part::of_set(alloc, set))),
                None => Ok(None),
            },
            (Part::Max(a), Part::Max(b)) => match a.state.join(alloc, &b.state)? {
                Some(max) => Ok(Some(Part::of_max(alloc, max))),
                None => Ok(None),
            },
            _ => Ok(None),
        }
    }

    fn leq(&self, other: &Part) -> bool {
        match (self, other) {
            (Part::Empty, _) => true,
            (Part::Cell(a), Part::Cell(b)) => *a == *b,
            (Part::Set(a), Part::Set(b)) => a.state.leq(&b.state),
            (Part::Max(a), Part::Max(b)) => a.state.leq(&b.state),
            _ => false,
        }
    }

    fn events(&self, alloc: Global) -> Result<Vec<PartEvent>, AllocError> {
        match self {
            Part::Empty => Ok(Vec::new(alloc)),
            Part::Cell(n) => of_sides(alloc, &[*n], &[]),
            Part::Set(a) => set_events(alloc, &a.state.events(alloc)?),
            Part::Max(a) => max_events(alloc, &a.state.events(alloc)?),
        }
    }

    fn fresh(alloc: Global, old: &Part, put: &Part) -> Result<Vec<PartEvent>, AllocError> {
        if let Part::Empty = put {
            return Ok(Vec::new(alloc));
        }
        match (old, put) {
            (Part::Empty, _) => put.events(alloc),
            (Part::Cell(_), Part::Cell(_)) => Ok(Vec::new(alloc)),
            (Part::Set(a), Part::Set(b)) => {
                set_events(alloc, &GrowSet::fresh(alloc, &a.state, &b.state)?)
            }
            (Part::Max(a), Part::Max(b)) => {
                max_events(alloc, &MaxCounter::fresh(alloc, &a.state, &b.state)?)
            }
            _ => Ok(Vec::new(alloc)),
        }
    }

    fn copy(&self, alloc: Global) -> Result<Part, AllocError> {
        match self {
            Part::Empty => Ok(Part::Empty),
            Part::Cell(n) => Ok(Part::Cell(*n)),
            Part::Set(a) => Ok(Part::Set(a.copy(alloc)?)),
            Part::Max(a) => Ok(Part::Max(a.copy(alloc)?)),
        }
    }

    fn merge(&mut self, alloc: Global, put: &Part) -> Result<bool, AllocError> {
        match self {
            Part::Empty => {
                *self = put.copy(alloc)?;
                Ok(true)
            }
            Part::Cell(a) => match put {
                Part::Empty => Ok(true),
                Part::Cell(b) => Ok(*a == *b),
                _ => Ok(false),
            },
            Part::Set(a) => match put {
                Part::Empty => Ok(true),
                Part::Set(b) => a.merge(alloc, b),
                _ => Ok(false),
            },
            Part::Max(a) => match put {
                Part::Empty => Ok(true),
                Part::Max(b) => a.merge(alloc, b),
                _ => Ok(false),
            },
        }
    }

    ghost use Rattle.lvish_compound.specs.laws.PartLaws.{alike_identical, part_is_join, part_has_events};

    ghost identical = { alike_identical };

    ghost is_join = { part_is_join };

    ghost use Rattle.std.specs.Prelude.{refl};

    ghost has_events = { part_has_events _ (λ x z. refl) (λ x z. refl) (λ x z. refl) (λ x y. refl) (λ x y. refl) (λ x y. refl) (λ x y. refl) _ (λ x z. refl) (λ x z. refl) (λ x z. refl) (λ x y. refl) (λ x y. refl) };
}

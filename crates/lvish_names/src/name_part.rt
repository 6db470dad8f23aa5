ghost use Rattle.lvish_names.specs.NameOrder.{part_eq, part_cmp};
ghost use Rattle.lvish_names.specs.laws.OrderLaws.{part_per, part_equiv, part_total, part_ties};
ghost use Rattle.std.specs.Prelude.{refl, Some};
ghost use Rattle.std.specs.Ordering.{as_partial_cmp};
ghost use Rattle.std.specs.Cmp.{partial_order_from_agreeing_total};

use lvish_lattice::Numbered;
use std::cmp::Ordering;
use std::fmt;
use std::hash::{Hash, Hasher};

/// A step on the path from `main` to a task.
///
/// Parts are ordered with forks first, by their number; what handlers are handed comes after them, by
/// the handler's number and then by the event.
#[derive(Clone, Copy, Debug)]
pub enum NamePart<E> {
    /// The task's i-th fork, from 1.
    Fork(u64),
    /// The event that the task's j-th handler, from 1, is handed.
    Hand(u64, E),
}

impl<E: PartialEq> PartialEq for NamePart<E> {
    ghost eq = { part_eq E.eq };

    ghost laws = { part_per E.laws };

    fn eq(&self, other: &NamePart<E>) -> bool {
        match (self, other) {
            (NamePart::Fork(i), NamePart::Fork(k)) => i == k,
            (NamePart::Hand(i, e), NamePart::Hand(k, f)) => i == k && e == f,
            _ => false,
        }
    }
}

impl<E: Eq> Eq for NamePart<E> {
    ghost laws = { part_equiv E.Eq.laws };
}

impl<E: Ord> PartialOrd for NamePart<E> {
    ghost partial_cmp = { as_partial_cmp (part_cmp E.cmp) };

    ghost laws = { partial_order_from_agreeing_total (part_cmp E.cmp) (part_total E.total) (λ x y. refl) (part_ties E.cmp E.matches_eq) };

    fn partial_cmp(&self, other: &NamePart<E>) -> Option<Ordering> {
        Some(self.cmp(other))
    }
}

impl<E: Ord> Ord for NamePart<E> {
    ghost cmp = { part_cmp E.cmp };

    ghost total = { part_total E.total };

    ghost matches_partial_cmp = { λ x y. refl };

    ghost matches_eq = { part_ties E.cmp E.matches_eq };

    fn cmp(&self, other: &NamePart<E>) -> Ordering {
        match (self, other) {
            (NamePart::Fork(i), NamePart::Fork(k)) => i.cmp(k),
            (NamePart::Fork(_), NamePart::Hand(..)) => Ordering::Less,
            (NamePart::Hand(..), NamePart::Fork(_)) => Ordering::Greater,
            (NamePart::Hand(i, e), NamePart::Hand(k, f)) => i.cmp(k).then_with(|| e.cmp(f)),
        }
    }
}

impl<E: Numbered> fmt::Display for NamePart<E> {
    ghost use Rattle.lvish_names.specs.NameText.{part_text};

    ghost output = { λ part. Some (part_text E.key_of E.number_of part) };

    fn fmt<W: fmt::Write>(&self, f: &mut fmt::Formatter<W>) -> fmt::Result {
        match self {
            NamePart::Fork(i) => write!(f, "{i}"),
            NamePart::Hand(j, event) => write!(f, "h{j}:{}:{}", event.key(), event.number()),
        }
    }
}

impl<E: Eq + Hash> Hash for NamePart<E> {
    ghost use Rattle.lvish_names.specs.NameHash.{part_input, parts_alike};

    ghost hash_input = { part_input E.hash_input };

    ghost respects_eq = { parts_alike E.hash_input E.respects_eq };

    fn hash<H: Hasher>(&self, state: &mut H) {
        match self {
            NamePart::Fork(i) => state.write_u64(*i),
            NamePart::Hand(j, event) => {
                state.write_u64(*j);
                event.hash(state);
            }
        }
    }
}

ghost use Rattle.std.specs.Prelude.{◌≡◌, ◌∷◌, ◌≤◌, ◌<◌, ◌↔◌, Some, IfOk, IfSome, IsErrOf, IsTrue, IsFalse, length};
ghost use Rattle.std.specs.Arc.{arc_value};
ghost use Rattle.std.specs.Option.{option_copied, option_map};
ghost use Rattle.std.specs.Fmt.{WritesOnOk};
ghost use Rattle.lvish_names.specs.Path.{path_parts};
ghost use Rattle.std.specs.String.{string_bytes};
ghost use Rattle.lvish_names.specs.Names.{main, forked, handed, is_deep, handler_of, same_name};
ghost use Rattle.lvish_names.specs.NameText.{name_text};
ghost use Rattle.lvish_names.specs.NameOrder.{name_cmp};
ghost use Rattle.lvish_names.specs.Summaries.{IsPathSummed, summary_of};

use crate::handler_name::HandlerName;
use crate::limits::MOST_PARTS;
use crate::name_fault::NameFault;
use crate::name_part::NamePart;
use crate::parts::Parts;
use crate::path::{Link, are_one, before, feed, link_of, order, share};
use crate::summary::Summary;
use lvish_lattice::{Numbered, Plain};
use std::alloc::{AllocError, Global};
use std::cmp::Ordering;
use std::fmt;
use std::hash::{Hash, Hasher};
use std::marker::Model;
use std::sync::Arc;

/// A task's name: the path from `main` to the task, of at most `MOST_PARTS` parts.
///
/// A name is its last link, which copies and the names that go on from there share.
#[derive(Debug)]
pub struct TaskName<E> {
    path: Option<Arc<Link<E>>>,
}

// Written out, so that it is proved once, and not at each exit of a function that owns one.
impl<E: Drop> Drop for TaskName<E> {
    fn drop(self) {
        let TaskName { path: _ } = self;
    }
}

impl<E> Model for TaskName<E> {
    ghost use Rattle.std.specs.Prelude.{◌≡◌, ◌≤◌, option_map, length};
    ghost use Rattle.std.specs.Arc.{arc_value};
    ghost use Rattle.lvish_names.specs.declared.limits.TheConstants.{MOST_PARTS};
    ghost use Rattle.lvish_names.specs.Names.{Name};
    ghost use Rattle.lvish_names.specs.Path.{path_parts};
    ghost use Rattle.lvish_names.specs.Summaries.{IsPathSummed};

    ghost Value = { Name E };

    ghost view = { λ n. path_parts (option_map arc_value n.path) };

    ghost invariant = { λ n. IsPathSummed (option_map arc_value n.path) × (length (path_parts (option_map arc_value n.path)) ≤ MOST_PARTS) };
}

impl<E> TaskName<E> {
    /// The first task's name.
    pub fn main() -> Self
        ensures { result ≡ main }
    {
        TaskName { path: None }
    }

    /// The last link of its path.
    fn link(&self) -> Option<&Link<E>>
        ensures parts { path_parts (option_copied result) ≡ self.now }
        ensures summed { IsPathSummed (option_copied result) }
        ensures few { length (path_parts (option_copied result)) ≤ MOST_PARTS }
    {
        link_of(&self.path)
    }

    /// What its last link says of it.
    #[inline(always)]
    fn summary(&self) -> Summary
        ensures of { result ≡ summary_of self.now }
        ensures few { result.depth ≤ MOST_PARTS }
    {
        match self.link() {
            Some(link) => link.summary,
            None => Summary::main(),
        }
    }

    /// The parts after `main`, the last one first.
    pub fn parts(&self) -> Parts<'_, E>
        ensures { result ≡ self.now }
    {
        Parts { link: self.link() }
    }

    /// How many parts the name has after `main`, at most `MOST_PARTS`.
    pub fn len(&self) -> usize
        ensures length { result ≡ length self.now }
        ensures few { result ≤ MOST_PARTS }
    {
        self.summary().depth as usize
    }

    /// Whether the name has `MOST_PARTS` parts, so that none may be added.
    pub fn is_deep(&self) -> bool
        ensures { result ≡ is_deep self.now }
    {
        self.len() >= MOST_PARTS
    }
}

impl<E: Plain> TaskName<E> {
    /// The name of this task's i-th fork.
    ///
    /// # Errors
    ///
    /// `Deep` where this name has `MOST_PARTS` parts, else `Memory` where there is no room for the new name.
    pub fn child(&self, alloc: Global, number: u64) -> Result<TaskName<E>, NameFault>
        ensures ok { IfOk result (λ t. t ≡ forked self.now number) }
        ensures deep { IsErrOf result NameFault.Deep ↔ IsTrue (is_deep self.now) }
    {
        if self.is_deep() {
            return Err(NameFault::Deep);
        }
        Ok(self.followed_by(alloc, NamePart::Fork(number))?)
    }

    /// The name of the task that handles the event for the handler.
    ///
    /// # Errors
    ///
    /// Where there is no room for the new name.
    pub fn handed(
        alloc: Global,
        handler: &HandlerName<E>,
        event: &E,
    ) -> Result<TaskName<E>, AllocError>
        ensures { IfOk result (λ t. t ≡ handed handler.now.adder handler.now.number event.now) }
    {
        let last = NamePart::Hand(handler.number(), *event);
        handler.adder().followed_by(alloc, last)
    }

    /// The handler in whose pool the task runs: that of the last event that stands in its name, if
    /// there is one.
    ///
    /// # Errors
    ///
    /// Where more names share the handler's than can be counted.
    pub fn pool_of(&self) -> Result<Option<HandlerName<E>>, AllocError>
        ensures { IfOk result (λ h. h ≡ handler_of self.now) }
    {
        match self.last_event() {
            Some((before, number)) => {
                let path = share(before)?;
                Ok(Some(HandlerName::of(TaskName { path }, number)))
            }
            None => Ok(None),
        }
    }

    /// Whether the task runs in the pool of this handler.
    #[inline(always)]
    pub fn runs_in(&self, handler: &HandlerName<E>) -> bool
        ensures { IsTrue result ↔ (handler_of self.now ≡ Some handler.now) }
    {
        match self.last_event() {
            Some((before, number)) => {
                number == handler.number() && handler.adder().has_path(before)
            }
            None => false,
        }
    }

    /// The path before the last event that stands in the name, and the number of its handler.
    #[inline(always)]
    fn last_event(&self) -> Option<(&Option<Arc<Link<E>>>, u64)>
        ensures pool { option_map (λ l. record { adder = path_parts (option_map arc_value l.0.now); number = l.1 }) result ≡ handler_of self.now }
        ensures summed { IfSome result (λ l. IsPathSummed (option_map arc_value l.0.now)) }
        ensures few { IfSome result (λ l. length (path_parts (option_map arc_value l.0.now)) < MOST_PARTS) }
    {
        if !self.summary().has_event {
            return None;
        }
        let mut path = self.link();
        while let Some(link) = path {
            if let NamePart::Hand(number, _) = link.last {
                return Some((&link.before, number));
            }
            path = link_of(&link.before);
        }
        None
    }

    /// Whether this is the name with the path.
    #[inline(always)]
    fn has_path(&self, path: &Option<Arc<Link<E>>>) -> bool
        ensures { result ≡ same_name E.eq self.now (path_parts (option_map arc_value path.now)) }
    {
        are_one(&self.path, path)
    }

    /// An equal name, which takes no memory.
    ///
    /// # Errors
    ///
    /// Where more names share this one than can be counted.
    pub fn copy(&self) -> Result<TaskName<E>, AllocError>
        ensures { IfOk result (λ t. t ≡ self.now) }
    {
        let path = share(&self.path)?;
        Ok(TaskName { path })
    }

    fn followed_by(&self, alloc: Global, part: NamePart<E>) -> Result<TaskName<E>, AllocError>
        requires { IsFalse (is_deep self.now) }
        ensures { IfOk result (λ t. t ≡ part ∷ self.now) }
    {
        let before = share(&self.path)?;
        let summary = self.summary().followed_by(&part);
        let link = Link {
            summary,
            before,
            last: part,
        };
        let path = Some(Arc::new(alloc, link)?);
        Ok(TaskName { path })
    }
}

impl<E: PartialEq> PartialEq for TaskName<E> {
    ghost use Rattle.lvish_names.specs.laws.OrderLaws.{name_per};

    ghost eq = { same_name E.eq };

    ghost laws = { name_per E.laws };

    #[inline(always)]
    fn eq(&self, other: &TaskName<E>) -> bool {
        are_one(&self.path, &other.path)
    }
}

impl<E: Eq> Eq for TaskName<E> {
    ghost use Rattle.lvish_names.specs.laws.OrderLaws.{name_equiv};

    ghost laws = { name_equiv E.Eq.laws };
}

impl<E: Ord> PartialOrd for TaskName<E> {
    ghost use Rattle.std.specs.Prelude.{refl};
    ghost use Rattle.std.specs.Ordering.{as_partial_cmp};
    ghost use Rattle.std.specs.Cmp.{partial_order_from_agreeing_total};
    ghost use Rattle.lvish_names.specs.laws.OrderLaws.{name_total, name_ties};

    ghost partial_cmp = { as_partial_cmp (name_cmp E.cmp) };

    ghost laws = { partial_order_from_agreeing_total (name_cmp E.cmp) (name_total E.total) (λ x y. refl) (name_ties E.cmp E.matches_eq) };

    fn partial_cmp(&self, other: &TaskName<E>) -> Option<Ordering> {
        Some(self.cmp(other))
    }
}

impl<E: Ord> Ord for TaskName<E> {
    ghost use Rattle.std.specs.Prelude.{refl};
    ghost use Rattle.lvish_names.specs.laws.OrderLaws.{name_total, name_ties};

    ghost cmp = { name_cmp E.cmp };

    ghost total = { name_total E.total };

    ghost matches_partial_cmp = { λ x y. refl };

    ghost matches_eq = { name_ties E.cmp E.matches_eq };

    #[inline(always)]
    fn cmp(&self, other: &TaskName<E>) -> Ordering {
        // `main` alone has no link.
        match (&self.path, &other.path) {
            (None, None) => Ordering::Equal,
            _ => self.order(other),
        }
    }
}

impl<E: Ord> TaskName<E> {
    /// The order of two names, by their lengths and then part by part from the first.
    #[inline(never)]
    fn order(&self, other: &TaskName<E>) -> Ordering
        ensures { result ≡ name_cmp E.cmp self.now other.now }
    {
        let (own, others) = (self.link(), other.link());
        let (depth, others_depth) = (self.len(), other.len());
        match depth.cmp(&others_depth) {
            Ordering::Equal => order(own, others, Ordering::Equal),
            Ordering::Less => {
                let beside = before(others, others_depth - depth);
                order(own, beside, Ordering::Less)
            }
            Ordering::Greater => {
                let beside = before(own, depth - others_depth);
                order(beside, others, Ordering::Greater)
            }
        }
    }
}

impl<E: Eq + Hash> Hash for TaskName<E> {
    ghost use Rattle.lvish_names.specs.NameHash.{name_input, names_alike};

    ghost hash_input = { name_input E.hash_input };

    ghost respects_eq = { names_alike E.hash_input E.respects_eq };

    fn hash<H: Hasher>(&self, state: &mut H) {
        let summary = self.summary();
        if summary.has_event {
            feed(self.link(), state);
        } else {
            state.write_u32(summary.code);
        }
    }
}

impl<E: Numbered> TaskName<E> {
    /// The name's text, as `main/2` or `main/h1:0:3/1`.
    ///
    /// # Errors
    ///
    /// Where there is no room for it.
    pub fn text(&self, alloc: Global) -> Result<String, AllocError>
        ensures { IfOk result (λ s. string_bytes s ≡ name_text E.key_of E.number_of self.now) }
    {
        self.to_string(alloc)
    }
}

impl<E: Numbered> fmt::Display for TaskName<E> {
    ghost output = { λ t. Some (name_text E.key_of E.number_of t) };

    fn fmt<W: fmt::Write>(&self, f: &mut fmt::Formatter<W>) -> fmt::Result {
        print(self.link(), f)
    }
}

/// Prints `main`, and the parts of a path.
fn print<E: Numbered, W: fmt::Write>(
    path: Option<&Link<E>>,
    f: &mut fmt::Formatter<W>,
) -> fmt::Result
    ensures { WritesOnOk W.write_str_gives f.old result (name_text E.key_of E.number_of (path_parts (option_copied path.entry))) f.new }
{
    match path {
        None => write!(f, "main"),
        Some(link) => {
            print(link_of(&link.before), f)?;
            let part = &link.last;
            write!(f, "/{part}")
        }
    }
}

//! The path from `main` to a task, link by link.

ghost use Rattle.std.specs.Prelude.{◌≡◌, ◌∷◌, [], ◌-◌, ◌==◌, Some, None, IfOk, length, drop, MatchOption};
ghost use Rattle.std.specs.Option.{option_copied, option_map};
ghost use Rattle.std.specs.Arc.{arc_value};
ghost use Rattle.std.specs.List.{fold};
ghost use Rattle.std.specs.Ordering.{ordering_then};
ghost use Rattle.lvish_names.specs.Names.{same_name};
ghost use Rattle.lvish_names.specs.NameOrder.{name_cmp};
ghost use Rattle.lvish_names.specs.NameHash.{parts_input};
ghost use Rattle.lvish_names.specs.Path.{path_parts};

use crate::name_part::NamePart;
use crate::summary::Summary;
use std::alloc::AllocError;
use std::cmp::Ordering;
use std::hash::{Hash, Hasher};
use std::sync::Arc;

/// The last part of a path, and the link before it, which all paths that go on from there share.
///
/// The summary comes first, since it is read most, and so lies beside the count of who shares the link.
#[derive(Debug)]
pub(crate) struct Link<E> {
    pub summary: Summary,
    pub before: Option<Arc<Link<E>>>,
    pub last: NamePart<E>,
}

// Written out, so that it is proved once, and not at each exit of a function that owns one.
impl<E: Drop> Drop for Link<E> {
    fn drop(self) {
        let Link {
            summary: _,
            before: _,
            last: _,
        } = self;
    }
}

/// The last link of a path, if it has one.
#[inline(always)]
pub(crate) fn link_of<E>(path: &Option<Arc<Link<E>>>) -> Option<&Link<E>>
    ensures { option_copied result ≡ option_map arc_value path.now }
{
    match path {
        Some(link) => Some(link),
        None => None,
    }
}

/// The same path, which both share.
///
/// # Errors
///
/// Where more share it than can be counted.
#[inline(always)]
pub(crate) fn share<E: Drop>(
    path: &Option<Arc<Link<E>>>,
) -> Result<Option<Arc<Link<E>>>, AllocError>
    ensures { IfOk result (λ p. option_map arc_value p ≡ option_map arc_value path.now) }
{
    match path {
        Some(link) => Ok(Some(link.clone()?)),
        None => Ok(None),
    }
}

/// Whether two names have the same path: `main` alone has none.
#[inline(always)]
pub(crate) fn are_one<E: PartialEq>(
    one: &Option<Arc<Link<E>>>,
    other: &Option<Arc<Link<E>>>,
) -> bool
    ensures { result ≡ same_name E.eq (path_parts (option_map arc_value one.now)) (path_parts (option_map arc_value other.now)) }
{
    match (one, other) {
        (None, None) => true,
        _ => are_same(link_of(one), link_of(other)),
    }
}

/// Whether two paths are the same, part by part from the last one on.
#[inline(never)]
fn are_same<E: PartialEq>(one: Option<&Link<E>>, other: Option<&Link<E>>) -> bool
    ensures { result ≡ same_name E.eq (path_parts (option_copied one.entry)) (path_parts (option_copied other.entry)) }
{
    match (one, other) {
        (None, None) => true,
        (Some(one), Some(other)) => {
            one.last == other.last && are_same(link_of(&one.before), link_of(&other.before))
        }
        (None, Some(_)) => false,
        (Some(_), None) => false,
    }
}

/// The order of two paths of the same length, part by part from `main` on, and where they are the same
/// this one.
pub(crate) fn order<E: Ord>(
    one: Option<&Link<E>>,
    other: Option<&Link<E>>,
    rest: Ordering,
) -> Ordering
    requires { length (path_parts (option_copied one)) ≡ length (path_parts (option_copied other)) }
    ensures { result ≡ ordering_then (name_cmp E.cmp (path_parts (option_copied one.entry)) (path_parts (option_copied other.entry))) rest }
{
    // (from the last part on, since the paths lead that way: a part before it outweighs it)
    match (one, other) {
        (Some(one), Some(other)) => {
            let last = one.last.cmp(&other.last);
            order(
                link_of(&one.before),
                link_of(&other.before),
                last.then(rest),
            )
        }
        _ => rest,
    }
}

/// The link that many links before this one.
pub(crate) fn before<E>(link: Option<&Link<E>>, steps: usize) -> Option<&Link<E>>
    ensures { path_parts (option_copied result) ≡ drop steps (path_parts (option_copied link.entry)) }
{
    let (mut at, mut left) = (link, steps);
    while left > 0 {
        match at {
            Some(link) => at = link_of(&link.before),
            None => return None,
        }
        left -= 1;
    }
    at
}

/// Feeds each part to the hasher, the last one first.
pub(crate) fn feed<E: Eq + Hash, H: Hasher>(path: Option<&Link<E>>, state: &mut H)
    ensures { state.new ≡ fold H.write state.old (parts_input E.hash_input (path_parts (option_copied path.entry))) }
{
    if let Some(link) = path {
        link.last.hash(state);
        feed(link_of(&link.before), state);
    }
}

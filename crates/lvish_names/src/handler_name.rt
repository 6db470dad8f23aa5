ghost use Rattle.std.specs.Prelude.{◌≡◌, ◌↔◌, Some, IfOk, IsErrOf, IsTrue, IsFalse};
ghost use Rattle.std.specs.String.{string_bytes};
ghost use Rattle.lvish_names.specs.Names.{is_deep, same_handler};
ghost use Rattle.lvish_names.specs.NameText.{handler_text};
ghost use Rattle.lvish_names.specs.NameOrder.{handler_cmp};

use crate::name_fault::NameFault;
use crate::task_name::TaskName;
use lvish_lattice::{Numbered, Plain};
use std::alloc::{AllocError, Global};
use std::cmp::Ordering;
use std::fmt;
use std::hash::{Hash, Hasher};
use std::marker::Model;

/// A handler's name: the task that added it, and which of that task's handlers it is, from 1.
#[derive(Debug)]
pub struct HandlerName<E> {
    adder: TaskName<E>,
    number: u64,
}

// Written out, so that it is proved once, and not at each exit of a function that owns one.
impl<E: Drop> Drop for HandlerName<E> {
    fn drop(self) {
        let HandlerName {
            adder: _,
            number: _,
        } = self;
    }
}

impl<E> Model for HandlerName<E> {
    ghost use Rattle.std.specs.Prelude.{length, ◌<◌};
    ghost use Rattle.lvish_names.specs.declared.limits.TheConstants.{MOST_PARTS};
    ghost use Rattle.lvish_names.specs.Names.{Handler};

    ghost Value = { Handler E };

    ghost view = { λ h. record { adder = h.adder; number = h.number } };

    ghost invariant = { λ h. length h.adder < MOST_PARTS };
}

impl<E> HandlerName<E> {
    pub(crate) fn of(adder: TaskName<E>, number: u64) -> HandlerName<E>
        requires { IsFalse (is_deep adder) }
        ensures { result ≡ record { adder = adder; number = number } }
    {
        HandlerName { adder, number }
    }

    /// The name of the task that added the handler.
    pub fn adder(&self) -> &TaskName<E>
        ensures adder { result.now ≡ self.now.adder }
        ensures has_room { IsFalse (is_deep result.now) }
    {
        &self.adder
    }

    /// The handler's number among those that its adder added, from 1.
    pub fn number(&self) -> u64
        ensures { result ≡ self.now.number }
    {
        self.number
    }
}

impl<E: Plain> HandlerName<E> {
    /// The name of the j-th handler that the task added.
    ///
    /// # Errors
    ///
    /// `Deep` where the task's name has `MOST_PARTS` parts, else `Memory` where more names share it
    /// than can be counted.
    pub fn new(adder: &TaskName<E>, number: u64) -> Result<HandlerName<E>, NameFault>
        ensures ok { IfOk result (λ h. h ≡ record { adder = adder.now; number = number }) }
        ensures deep { IsErrOf result NameFault.Deep ↔ IsTrue (is_deep adder.now) }
    {
        if adder.is_deep() {
            return Err(NameFault::Deep);
        }
        let adder = adder.copy()?;
        Ok(HandlerName::of(adder, number))
    }

    /// An equal name, which takes no memory.
    ///
    /// # Errors
    ///
    /// Where more names share the adder's than can be counted.
    pub fn copy(&self) -> Result<HandlerName<E>, AllocError>
        ensures { IfOk result (λ h. h ≡ self.now) }
    {
        let adder = self.adder.copy()?;
        let number = self.number;
        Ok(HandlerName { adder, number })
    }
}

impl<E: PartialEq> PartialEq for HandlerName<E> {
    ghost use Rattle.lvish_names.specs.laws.OrderLaws.{handler_per};

    ghost eq = { same_handler E.eq };

    ghost laws = { handler_per E.laws };

    #[inline(always)]
    fn eq(&self, other: &HandlerName<E>) -> bool {
        self.number == other.number && self.adder == other.adder
    }
}

impl<E: Eq> Eq for HandlerName<E> {
    ghost use Rattle.lvish_names.specs.laws.OrderLaws.{handler_equiv};

    ghost laws = { handler_equiv E.Eq.laws };
}

impl<E: Ord> PartialOrd for HandlerName<E> {
    ghost use Rattle.std.specs.Prelude.{refl};
    ghost use Rattle.std.specs.Ordering.{as_partial_cmp};
    ghost use Rattle.std.specs.Cmp.{partial_order_from_agreeing_total};
    ghost use Rattle.lvish_names.specs.laws.OrderLaws.{handler_total, handler_ties};

    ghost partial_cmp = { as_partial_cmp (handler_cmp E.cmp) };

    ghost laws = { partial_order_from_agreeing_total (handler_cmp E.cmp) (handler_total E.total) (λ x y. refl) (handler_ties E.cmp E.matches_eq) };

    fn partial_cmp(&self, other: &HandlerName<E>) -> Option<Ordering> {
        Some(self.cmp(other))
    }
}

impl<E: Ord> Ord for HandlerName<E> {
    ghost use Rattle.std.specs.Prelude.{refl};
    ghost use Rattle.lvish_names.specs.laws.OrderLaws.{handler_total, handler_ties};

    ghost cmp = { handler_cmp E.cmp };

    ghost total = { handler_total E.total };

    ghost matches_partial_cmp = { λ x y. refl };

    ghost matches_eq = { handler_ties E.cmp E.matches_eq };

    fn cmp(&self, other: &HandlerName<E>) -> Ordering {
        self.adder
            .cmp(&other.adder)
            .then(self.number.cmp(&other.number))
    }
}

impl<E: Numbered> HandlerName<E> {
    /// The name's text, as `main/h1`.
    ///
    /// # Errors
    ///
    /// Where there is no room for it.
    pub fn text(&self, alloc: Global) -> Result<String, AllocError>
        ensures { IfOk result (λ s. string_bytes s ≡ handler_text E.key_of E.number_of self.now) }
    {
        self.to_string(alloc)
    }
}

impl<E: Numbered> fmt::Display for HandlerName<E> {
    ghost output = { λ h. Some (handler_text E.key_of E.number_of h) };

    fn fmt<W: fmt::Write>(&self, f: &mut fmt::Formatter<W>) -> fmt::Result {
        write!(f, "{}/h{}", self.adder, self.number)
    }
}

impl<E: Eq + Hash> Hash for HandlerName<E> {
    ghost use Rattle.lvish_names.specs.NameHash.{handler_input, handlers_alike};

    ghost hash_input = { handler_input E.hash_input };

    ghost respects_eq = { handlers_alike E.hash_input E.respects_eq };

    fn hash<H: Hasher>(&self, state: &mut H) {
        state.write_u64(self.number);
        self.adder.hash(state);
    }
}

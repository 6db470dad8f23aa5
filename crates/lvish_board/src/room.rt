//! Room for the work of a step.

ghost use Rattle.std.specs.Prelude.{◌≡◌, ◌≤◌, ◌+◌, [], IfOk, length, map, vec_capacity};
ghost use Rattle.lvish_board.specs.Left.{AreConcerned, most_added};

use crate::asked::Asked;
use crate::board_brand::BoardBrand;
use lvish_calculus::{Meaning, Program, Request};
use lvish_core::{Core, CoreMeaning};
use lvish_handlers::Held;
use lvish_lattice::{Lattice, Plain};
use lvish_names::HandlerName;
use std::alloc::{AllocError, Global};
use std::mem;

/// Room for the work of a step, taken before it, so that nothing is refused after it. A board keeps
/// it from step to step, so that a step takes memory only where there isn't enough room.
pub(crate) struct Room<P: Program, B: BoardBrand<P>> {
    pub woken: Vec<Asked<P, B>>,
    /// The names of the handlers that a step may concern.
    pub concerned: Vec<HandlerName<<P::Lat as Lattice>::Event>>,
    /// Those of them with something left for them.
    pub hands: Vec<HandlerName<<P::Lat as Lattice>::Event>>,
}

// Written out, so that it is proved once, and not at each exit of a function that owns one.
impl<P: Program, B: BoardBrand<P>> Drop for Room<P, B> {
    fn drop(self) {
        let Room {
            woken: _,
            concerned: _,
            hands: _,
        } = self;
    }
}

impl<P: Program, B: BoardBrand<P>> Room<P, B> {
    /// No room.
    pub(crate) fn new(alloc: Global) -> Room<P, B> {
        Room {
            woken: Vec::new(alloc),
            concerned: Vec::new(alloc),
            hands: Vec::new(alloc),
        }
    }

    /// Empties it, with room for this many parked tasks and this many handlers.
    ///
    /// # Errors
    ///
    /// Where there is none.
    #[inline(always)]
    pub(crate) fn reserve(&mut self, parked: usize, handlers: usize) -> Result<(), AllocError>
        ensures woken { IfOk result (λ _. (self.new.woken.items ≡ []) × (parked ≤ vec_capacity self.new.woken)) }
        ensures concerned { IfOk result (λ _. (self.new.concerned.items ≡ []) × (handlers ≤ vec_capacity self.new.concerned)) }
        ensures hands { IfOk result (λ _. (self.new.hands.items ≡ []) × (handlers ≤ vec_capacity self.new.hands)) }
    {
        if !self.woken.is_empty() {
            self.woken.clear();
        }
        self.woken.reserve(parked)?;
        self.concerned.clear();
        self.concerned.reserve(handlers)?;
        self.hands.clear();
        self.hands.reserve(handlers)
    }

    /// Room for the step of a task, with copies of the names of the handlers that it may concern. It
    /// answers the number of entries in the log of its put's variable.
    ///
    /// # Errors
    ///
    /// Where there is none.
    pub(crate) fn reserve_for(
        &mut self,
        core: &Core<'_, P>,
        parked: usize,
        asked: &Asked<P, B>,
    ) -> Result<usize, AllocError>
        requires program { core.now.program ≡ B.program }
        ensures empty { IfOk result (λ _. (self.new.woken.items ≡ []) × (self.new.hands.items ≡ [])) }
        ensures concerned { IfOk result (λ n. AreConcerned P.Lat.Event.cmp (⟦<P as Meaning>⟧.machine core.now.program) core.now ((P.functions core.now.program).request asked.now.from) self.new.concerned.items n) }
        ensures woken_room { IfOk result (λ _. parked ≤ vec_capacity self.new.woken) }
        ensures concerned_room { IfOk result (λ _. length self.new.concerned.items + most_added ((P.functions core.now.program).request asked.now.from) ≤ vec_capacity self.new.concerned) }
        ensures hands_room { IfOk result (λ _. length self.new.concerned.items + most_added ((P.functions core.now.program).request asked.now.from) ≤ vec_capacity self.new.hands) }
    {
        match asked.request() {
            Request::Put(variable, _) => {
                let handlers = core.handlers(*variable);
                self.reserve(parked, handlers.len())?;
                copy_names(handlers, &mut self.concerned)?;
                Ok(core.states()[*variable].log().len())
            }
            Request::Add(_, _) => {
                self.reserve(parked, 1)?;
                Ok(0)
            }
            _ => {
                self.reserve(parked, 0)?;
                Ok(0)
            }
        }
    }
}

/// Puts what is in the buffer in place of what is in the list: the buffer keeps its room, where there
/// is room in the list or memory for more, else they change places.
#[inline(always)]
pub(crate) fn give<T: Drop>(buffer: &mut Vec<T>, list: &mut Vec<T>)
    ensures { list.new.items ≡ buffer.old.items }
{
    if !list.is_empty() {
        list.clear();
    }
    if !buffer.is_empty() {
        give_some(buffer, list);
    }
}

/// Puts what is in the buffer into the empty list.
fn give_some<T: Drop>(buffer: &mut Vec<T>, list: &mut Vec<T>)
    requires { list.old.items ≡ [] }
    ensures { list.new.items ≡ buffer.old.items }
{
    if list.append(buffer).is_err() {
        mem::swap(buffer, list);
    }
}

/// Copies the names of these handlers onto the empty list.
///
/// # Errors
///
/// Where there is no room for a copy.
fn copy_names<E: Plain>(
    handlers: &[Held<E>],
    names: &mut Vec<HandlerName<E>>,
) -> Result<(), AllocError>
    requires empty { names.old.items ≡ [] }
    requires room { length handlers.now ≤ vec_capacity names.old }
    ensures names { IfOk result (λ _. names.new.items ≡ map (λ h. h.name) handlers.now) }
    ensures capacity { vec_capacity names.new ≡ vec_capacity names.old }
{
    for held in handlers {
        names.push_reserved(held.name.copy()?);
    }
    Ok(())
}

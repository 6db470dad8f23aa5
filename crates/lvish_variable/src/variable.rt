ghost use Rattle.std.specs.Prelude.{◌≡◌, ◌⊎◌, [], false, true, Some, None, IsTrue, IfOk, IfErr};
ghost use Rattle.lvish_variable.specs.declared.put_fault.PutFault.TheVariants.{Conflict, Memory};
ghost use Rattle.lvish_variable.specs.Variable.{IsLogOf, IsPut, IsPutRefused};

use crate::entry::{Entry, note};
use crate::put_fault::PutFault;
use lvish_lattice::{Brought, Lattice, Reads};
use lvish_names::TaskName;
use std::alloc::{AllocError, Global};
use std::marker::Model;

/// A state that only grows, whether it is frozen, and its events in the order in which they came.
#[derive(Debug)]
pub struct Variable<L: Lattice> {
    state: L,
    frozen: bool,
    log: Vec<Entry<L::Event>>,
}

// Written out, so that it is proved once, and not at each exit of a function that owns one.
impl<L: Lattice> Drop for Variable<L> {
    fn drop(self) {
        let Variable {
            state: _,
            frozen: _,
            log: _,
        } = self;
    }
}

impl<L: Lattice> Model for Variable<L> {
    ghost use Rattle.lvish_variable.specs.Variable.{VariableView, IsLogOf};

    ghost Value = { VariableView L L.Event };

    ghost view = { λ v. record { state = v.state; frozen = v.frozen; log = v.log.items } };

    ghost invariant = { λ v. IsLogOf L.events_of v.state v.log.items };
}

impl<L: Lattice> Variable<L> {
    /// A variable at bottom.
    pub fn new(alloc: Global) -> Self
        ensures { result ≡ record { state = L.least; frozen = false; log = [] } }
    {
        Variable {
            state: L::bottom(alloc),
            frozen: false,
            log: Vec::new(alloc),
        }
    }

    /// Joins `put` to the state, and logs the events that it brings, as the task's put of that
    /// number.
    ///
    /// # Errors
    ///
    /// `Conflict` where the join is top, else `Frozen` where the variable is frozen and the join
    /// differs from its state; `Memory` where a growth was refused.
    pub fn put(
        &mut self,
        alloc: Global,
        task: &TaskName<L::Event>,
        number: u64,
        put: &L,
    ) -> Result<(), PutFault>
        ensures ok { IfOk result (λ _. IsPut L.joined L.Event.eq L.events_of task.now number put.now self.old self.new) }
        ensures why { IfErr result (λ f. IsPutRefused L.joined put.now self.old f) }
        ensures refused { IfErr result (λ _. self.new ≡ self.old) }
    {
        if self.frozen {
            return self.allow(alloc, put);
        }
        // The event's room and its task's name come first, since the state can't be cut back.
        self.log.reserve(1)?;
        let Ok(name) = task.copy() else {
            return Err(PutFault::Memory);
        };
        match self.state.merge_one(alloc, put)? {
            Brought::Nothing => Ok(()),
            Brought::One(event) => {
                self.log.push_reserved(Entry {
                    event,
                    task: name,
                    number,
                });
                Ok(())
            }
            Brought::Top => Err(PutFault::Conflict),
            Brought::Listed => self.put_listed(alloc, task, number, put),
        }
    }

    /// Makes the put, with a list of what it brings.
    #[inline(never)]
    fn put_listed(
        &mut self,
        alloc: Global,
        task: &TaskName<L::Event>,
        number: u64,
        put: &L,
    ) -> Result<(), PutFault>
        requires unfrozen { self.old.frozen ≡ false }
        ensures ok { IfOk result (λ _. IsPut L.joined L.Event.eq L.events_of task.now number put.now self.old self.new) }
        ensures why { IfErr result (λ f. IsPutRefused L.joined put.now self.old f) }
        ensures refused { IfErr result (λ _. self.new ≡ self.old) }
    {
        let fresh = L::fresh(alloc, &self.state, put)?;
        let before = self.log.len();
        note(&mut self.log, &fresh, task, number)?;
        // The log goes first, since it can be cut back, and the state can't.
        if let Err(refused) = raise(&mut self.state, alloc, put) {
            self.log.truncate(before);
            return Err(refused);
        }
        Ok(())
    }

    /// Whether a frozen variable takes the put, which leaves it as it is.
    fn allow(&self, alloc: Global, put: &L) -> Result<(), PutFault>
        requires frozen { IsTrue self.now.frozen }
        ensures ok { IfOk result (λ _. L.joined self.now.state put.now ≡ Some self.now.state) }
        ensures why { IfErr result (λ f. IsPutRefused L.joined put.now self.now f) }
    {
        if put.leq(&self.state) {
            return Ok(());
        }
        match self.state.join(alloc, put)? {
            Some(_) => Err(PutFault::Frozen),
            None => Err(PutFault::Conflict),
        }
    }

    /// Freezes the variable, and answers its state.
    ///
    /// # Errors
    ///
    /// Where there is no room for the state.
    pub fn freeze(&mut self, alloc: Global) -> Result<L, AllocError>
        ensures answer { IfOk result (λ s. s ≡ self.old.state) }
        ensures frozen { IfOk result (λ _. self.new ≡ record { state = self.old.state; frozen = true; log = self.old.log }) }
        ensures refused { IfErr result (λ _. self.new ≡ self.old) }
    {
        let state = self.state.copy(alloc)?;
        self.mark();
        Ok(state)
    }

    /// Freezes the variable, for one who reads its state where it stands.
    pub fn mark(&mut self)
        ensures { self.new ≡ record { state = self.old.state; frozen = true; log = self.old.log } }
    {
        self.frozen = true;
    }

    /// The state, whether it is frozen, and the log, without a copy.
    pub fn into_parts(self) -> (L, bool, Vec<Entry<L::Event>>)
        ensures state { result.0 ≡ self.state }
        ensures frozen { result.1 ≡ self.frozen }
        ensures log { result.2.items ≡ self.log }
    {
        let Variable { state, frozen, log } = self;
        (state, frozen, log)
    }

    pub fn state(&self) -> &L
        ensures { result.now ≡ self.now.state }
    {
        &self.state
    }

    pub fn is_frozen(&self) -> bool
        ensures { result ≡ self.now.frozen }
    {
        self.frozen
    }

    /// The events of the state, each once, in the order in which they came.
    pub fn log(&self) -> &[Entry<L::Event>]
        ensures log { result.now ≡ self.now.log }
        ensures kept { IsLogOf L.events_of self.now.state self.now.log }
    {
        &self.log
    }
}

impl<L: Reads> Variable<L> {
    /// The answer of the read in the state, if there is one.
    pub fn read(&self, read: &L::Read) -> Option<L::Answer>
        ensures { result ≡ L.answer_of read.now self.now.state }
    {
        L::trigger(read, &self.state)
    }
}

/// Joins `put` to the state.
#[inline(always)]
fn raise<L: Lattice>(state: &mut L, alloc: Global, put: &L) -> Result<(), PutFault>
    ensures ok { IfOk result (λ _. L.joined state.old put.now ≡ Some state.new) }
    ensures why { IfErr result (λ f. (f ≡ Memory) ⊎ ((f ≡ Conflict) × (L.joined state.old put.now ≡ None))) }
    ensures refused { IfErr result (λ _. state.new ≡ state.old) }
{
    if state.merge(alloc, put)? {
        Ok(())
    } else {
        Err(PutFault::Conflict)
    }
}

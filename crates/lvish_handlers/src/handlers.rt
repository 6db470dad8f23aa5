ghost use Rattle.std.specs.Prelude.{◌≡◌, ◌↔◌, ◌<◌, ◌+◌, ◌-◌, [], None, List, All, IfOk, IfSome, IsNone, IsSome, IsErr, IsErrOf, IsTrue, OnOk, OnErr, length, slice_index, slice_set, replicate};
ghost use Rattle.lvish_names.specs.Names.{Handler};
ghost use Rattle.lvish_variable.specs.declared.entry.Entry.{Entry};
ghost use Rattle.lvish_handlers.specs.Places.{IsAt};
ghost use Rattle.lvish_handlers.specs.Handlers.{IsHeld, IsByName, IsWithin, IsAdded, IsAdvanced, next_of};

use crate::fault::{AddFault, NothingToHand};
use crate::held::{Held, place_of};
use crate::limits::MOST_PROGRAM_STEPS;
use lvish_lattice::Lattice;
use lvish_names::HandlerName;
use lvish_variable::Variable;
use std::alloc::{AllocError, Global};
use std::marker::Model;

/// The handlers of a variable, and how many tasks run in each pool.
pub struct Handlers<L: Lattice> {
    held: Vec<Held<L::Event>>,
    // how many entries were handed in all, so that `drained` need not go through the handlers
    total: u128,
    running: Vec<u64>,
}

// Written out, so that it is proved once, and not at each exit of a function that owns one.
impl<L: Lattice> Drop for Handlers<L> {
    fn drop(self) {
        let Handlers {
            held: _,
            total: _,
            running: _,
        } = self;
    }
}

impl<L: Lattice> Model for Handlers<L> {
    ghost use Rattle.lvish_handlers.specs.Handlers.{HandlersView};
    ghost use Rattle.lvish_handlers.specs.Counted.{IsCounted};

    ghost Value = { HandlersView L.Event };

    ghost view = { λ h. record { held = h.held.items; running = h.running.items } };

    ghost invariant = { λ h. IsCounted L.Event.cmp h.held.items h.total };
}

impl<L: Lattice> Handlers<L> {
    /// No handler, and no task in any of the pools.
    ///
    /// # Errors
    ///
    /// Where there is no room for the counts.
    pub fn new(alloc: Global, pools: usize) -> Result<Self, AllocError>
        ensures { IfOk result (λ h. h ≡ record { held = []; running = replicate pools 0 }) }
    {
        let running = vec![in alloc; 0; pools]?;
        Ok(Handlers {
            held: Vec::new(alloc),
            total: 0,
            running,
        })
    }

    /// Adds a handler that was handed nothing yet.
    ///
    /// # Errors
    ///
    /// `Late` where the variable is frozen, else `Memory` where there is no room for it.
    pub fn add(
        &mut self,
        _alloc: Global,
        variable: &Variable<L>,
        pool: usize,
        name: HandlerName<L::Event>,
        procedure: usize,
    ) -> Result<(), AddFault>
        requires not_held { ¬ (IsHeld self.old.held name) }
        requires pool_is_there { pool < length self.old.running }
        ensures ok { OnOk result (IsAdded (record { name = name; pool = pool; procedure = procedure; handed = 0 }) self.old self.new) }
        ensures by_name { OnOk result (IsByName L.Event.cmp self.new.held) }
        ensures within { IsWithin self.old variable.now.log → IsWithin self.new variable.now.log }
        ensures late { IsErrOf result AddFault.Late ↔ IsTrue variable.now.frozen }
        ensures kept { OnErr result (self.new ≡ self.old) }
    {
        if variable.is_frozen() {
            return Err(AddFault::Late);
        }
        match place_of(&self.held, &name) {
            Ok(_) => unreachable!("the name isn't held"),
            Err(gap) => {
                self.held.insert(
                    gap,
                    Held {
                        name,
                        pool,
                        procedure,
                        handed: 0,
                    },
                )?;
                Ok(())
            }
        }
    }

    /// Whether a handler has this name.
    pub fn holds(&self, name: &HandlerName<L::Event>) -> bool
        ensures { IsTrue result ↔ IsHeld self.now.held name.now }
    {
        place_of(&self.held, name).is_ok()
    }

    /// The handlers, by name.
    pub fn held(&self) -> &[Held<L::Event>]
        ensures all { result.now ≡ self.now.held }
        ensures by_name { IsByName L.Event.cmp self.now.held }
    {
        &self.held
    }

    /// Where the handler of this name is among the others, if there is one.
    pub fn find(&self, name: &HandlerName<L::Event>) -> Option<usize>
        ensures found { IfSome result (λ at. IsAt self.now.held name.now at) }
        ensures missing { IsNone result → ¬ (IsHeld self.now.held name.now) }
        ensures none { IsNone result → (log : List (Entry L.Event)) → next_of L.Event.eq log self.now.held name.now ≡ None }
    {
        match place_of(&self.held, name) {
            Ok(at) => Some(at),
            Err(_gap) => None,
        }
    }

    /// The event that comes next for the handler of this name, if there is one.
    pub fn next(&self, variable: &Variable<L>, name: &HandlerName<L::Event>) -> Option<L::Event>
        ensures { result ≡ next_of L.Event.eq variable.now.log self.now.held name.now }
    {
        match self.find(name) {
            Some(at) => self.next_at(variable, at),
            None => None,
        }
    }

    /// The event that comes next for the handler at this place, if there is one.
    pub fn next_at(&self, variable: &Variable<L>, at: usize) -> Option<L::Event>
        requires { (name : Handler L.Event) × IsAt self.now.held name at }
        ensures { (name : Handler L.Event) → IsAt self.now.held name at → result ≡ next_of L.Event.eq variable.now.log self.now.held name }
    {
        match variable.log().get(self.held[at].handed) {
            Some(entry) => Some(entry.event),
            None => None,
        }
    }

    /// Whether an event comes next for the handler of this name.
    pub fn has_next(&self, variable: &Variable<L>, name: &HandlerName<L::Event>) -> bool
        ensures { IsTrue result ↔ IsSome (next_of L.Event.eq variable.now.log self.now.held name.now) }
    {
        match self.find(name) {
            Some(at) => self.next_at(variable, at).is_some(),
            None => false,
        }
    }

    /// Counts the event that comes next for the handler of this name as handed.
    ///
    /// # Errors
    ///
    /// `NothingToHand` where no event comes next.
    pub fn advance(
        &mut self,
        variable: &Variable<L>,
        name: &HandlerName<L::Event>,
    ) -> Result<(), NothingToHand>
        requires { IsWithin self.old variable.now.log }
        ensures ok { OnOk result (IsAdvanced L.Event.eq variable.now.log name.now self.old self.new) }
        ensures within { IsWithin self.new variable.now.log }
        ensures nothing { IsErr result ↔ (next_of L.Event.eq variable.now.log self.old.held name.now ≡ None) }
        ensures kept { OnErr result (self.new ≡ self.old) }
    {
        match self.find(name) {
            Some(at) => self.advance_at(variable, at),
            None => Err(NothingToHand),
        }
    }

    /// Counts the event that comes next for the handler at this place as handed.
    ///
    /// # Errors
    ///
    /// `NothingToHand` where no event comes next.
    pub fn advance_at(&mut self, variable: &Variable<L>, at: usize) -> Result<(), NothingToHand>
        requires there { (name : Handler L.Event) × IsAt self.old.held name at }
        requires within { IsWithin self.old variable.now.log }
        ensures ok { OnOk result ((name : Handler L.Event) → IsAt self.old.held name at → IsAdvanced L.Event.eq variable.now.log name self.old self.new) }
        ensures within { IsWithin self.new variable.now.log }
        ensures nothing { (name : Handler L.Event) → IsAt self.old.held name at → IsErr result ↔ (next_of L.Event.eq variable.now.log self.old.held name ≡ None) }
        ensures kept { OnErr result (self.new ≡ self.old) }
    {
        let handed = self.held.as_slice()[at].handed;
        if handed >= variable.log().len() {
            return Err(NothingToHand);
        }
        self.held[at].handed = handed + 1;
        self.total += 1;
        Ok(())
    }

    /// Whether each handler was handed the whole log.
    pub fn drained(&self, variable: &Variable<L>) -> bool
        requires { IsWithin self.now variable.now.log }
        ensures { IsTrue result ↔ All (λ h. h.handed ≡ length variable.now.log) self.now.held }
    {
        self.total == self.held.len() as u128 * variable.log().len() as u128
    }

    /// Whether no task runs in any of these pools.
    pub fn ended(&self, pools: &[usize]) -> bool
        requires { All (λ p. p < length self.now.running) pools.now }
        ensures { IsTrue result ↔ All (λ p. slice_index self.now.running p ≡ 0) pools.now }
    {
        for pool in pools {
            if self.running[*pool] != 0 {
                return false;
            }
        }
        true
    }

    /// One more task runs in the pool.
    pub fn task_started(&mut self, pool: usize)
        requires pool_is_there { pool < length self.old.running }
        requires few { slice_index self.old.running pool < MOST_PROGRAM_STEPS }
        ensures { self.new ≡ record { held = self.old.held; running = slice_set self.old.running pool (slice_index self.old.running pool + 1) } }
    {
        self.running[pool] += 1;
    }

    /// One task fewer runs in the pool.
    pub fn task_ended(&mut self, pool: usize)
        requires pool_is_there { pool < length self.old.running }
        requires some { 0 < slice_index self.old.running pool }
        ensures { self.new ≡ record { held = self.old.held; running = slice_set self.old.running pool (slice_index self.old.running pool - 1) } }
    {
        self.running[pool] -= 1;
    }
}

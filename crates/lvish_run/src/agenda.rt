//! The tasks that may go on, and the handlers that may have something left for them.

ghost use Rattle.std.specs.Prelude.{◌≡◌, true, None, Some, IfOk, IfErr, MatchOption};
ghost use Rattle.std.specs.Map.{lookup};
ghost use Rattle.std.specs.BTreeMap.{IsUnchanged, is_at};
ghost use Rattle.lvish_names.specs.NameOrder.{name_cmp};
ghost use Rattle.lvish_run.specs.Agenda.{open_in, IsEmpty, SetsOpenTask, HasHandler, NoTask, NoHandler, IsTaskGone, IsHandlerGone, PutsAt, IsBelow};

use crate::boxed_asked::BoxedAsked;
use lvish_board::{Asked, BoardBrand};
use lvish_calculus::Program;
use lvish_lattice::Lattice;
use lvish_names::{HandlerName, TaskName};
use std::alloc::{AllocError, Global};
use std::cmp::Ordering;
use std::collections::{BTreeMap, BTreeSet};
use std::marker::Model;

/// The open tasks, each with what it asks for, and the open handlers, both by name.
pub(crate) struct Agenda<P: Program, B: BoardBrand<P>> {
    // the first open task, where it doesn't stand among the others: a task that goes on is mostly the
    // first again, and is then taken from here with no tree changed
    first: Option<Asked<P, B>>,
    others: BTreeMap<TaskName<<P::Lat as Lattice>::Event>, BoxedAsked<P, B>>,
    handlers: BTreeSet<HandlerName<<P::Lat as Lattice>::Event>>,
}

// Written out, so that it is proved once, and not at each exit of a function that owns one.
impl<P: Program, B: BoardBrand<P>> Drop for Agenda<P, B> {
    fn drop(self) {
        let Agenda {
            first: _,
            others: _,
            handlers: _,
        } = self;
    }
}

impl<P: Program, B: BoardBrand<P>> Model for Agenda<P, B> {
    ghost use Rattle.std.specs.Prelude.{◌++◌};
    ghost use Rattle.lvish_run.specs.Agenda.{Agenda, entry_of, IsFirstOf};

    ghost Value = { Agenda P.Lat.Event P.Local };

    ghost view = { λ a. record { tasks = entry_of a.first ++ a.others.entries; handlers = a.handlers.keys } };

    ghost invariant = { λ a. IsFirstOf P.Lat.Event.cmp a.first a.others.entries };
}

/// Whether the name is below that of each of these tasks.
fn is_below<P: Program, B: BoardBrand<P>>(
    name: &TaskName<<P::Lat as Lattice>::Event>,
    others: &BTreeMap<TaskName<<P::Lat as Lattice>::Event>, BoxedAsked<P, B>>,
) -> bool
    ensures { result ≡ true → IsBelow P.Lat.Event.cmp name.now others.now.entries }
{
    match others.first_key_value() {
        Some((least, _asked)) => match name.cmp(least) {
            Ordering::Less => true,
            Ordering::Equal => false,
            Ordering::Greater => false,
        },
        None => true,
    }
}

/// Puts the task among the others, in place of any of its name.
fn keep<P: Program, B: BoardBrand<P>>(
    alloc: Global,
    others: &mut BTreeMap<TaskName<<P::Lat as Lattice>::Event>, BoxedAsked<P, B>>,
    asked: Asked<P, B>,
) -> Result<(), AllocError>
    ensures ok { IfOk result (λ _. PutsAt P.Lat.Event.cmp others.old.entries asked.task (Some asked) others.new.entries) }
    ensures err { IfErr result (λ _. IsUnchanged others.old others.new) }
{
    let name = asked.task().copy()?;
    match others.insert(name, BoxedAsked::new(alloc, asked)?) {
        Ok(_) => Ok(()),
        Err(_) => Err(AllocError),
    }
}

/// Takes the task of this name out of the others.
fn taken<P: Program, B: BoardBrand<P>>(
    others: &mut BTreeMap<TaskName<<P::Lat as Lattice>::Event>, BoxedAsked<P, B>>,
    name: &TaskName<<P::Lat as Lattice>::Event>,
) -> Option<Asked<P, B>>
    ensures was { result ≡ lookup (is_at (name_cmp P.Lat.Event.cmp name.now)) others.old.entries }
    ensures without { PutsAt P.Lat.Event.cmp others.old.entries name.now None others.new.entries }
{
    match others.remove(name) {
        Some(asked) => Some(asked.into_asked()),
        None => None,
    }
}

impl<P: Program, B: BoardBrand<P>> Agenda<P, B> {
    /// Nothing is open.
    pub(crate) fn new(alloc: Global) -> Agenda<P, B>
        ensures { IsEmpty (open_in P.Lat.Event.cmp result) }
    {
        Agenda {
            first: None,
            others: BTreeMap::new(alloc),
            handlers: BTreeSet::new(alloc),
        }
    }

    /// Takes the first open task out.
    pub(crate) fn pop_task(&mut self) -> Option<Asked<P, B>>
        ensures { MatchOption result (NoTask (open_in P.Lat.Event.cmp self.old) × (self.new ≡ self.old)) (λ p. IsTaskGone P.Lat.Event.cmp (open_in P.Lat.Event.cmp self.old) p (open_in P.Lat.Event.cmp self.new)) }
    {
        if self.first.is_some() {
            return self.first.take();
        }
        let Some((_, asked)) = self.others.pop_first() else {
            return None;
        };
        Some(asked.into_asked())
    }

    /// Takes the open task of this name out.
    pub(crate) fn take_task(
        &mut self,
        name: &TaskName<<P::Lat as Lattice>::Event>,
    ) -> Option<Asked<P, B>>
        ensures was { result ≡ (open_in P.Lat.Event.cmp self.old).at name.now }
        ensures without { SetsOpenTask P.Lat.Event.cmp (open_in P.Lat.Event.cmp self.old) name.now None (open_in P.Lat.Event.cmp self.new) }
    {
        match &self.first {
            Some(first) => {
                if first.task().cmp(name).is_eq() {
                    return self.first.take();
                }
                taken(&mut self.others, name)
            }
            None => taken(&mut self.others, name),
        }
    }

    /// Takes the first open handler out.
    pub(crate) fn pop_handler(&mut self) -> Option<HandlerName<<P::Lat as Lattice>::Event>>
        ensures { MatchOption result (NoHandler (open_in P.Lat.Event.cmp self.old)) (λ h. IsHandlerGone P.Lat.Event.cmp (open_in P.Lat.Event.cmp self.old) h (open_in P.Lat.Event.cmp self.new)) }
    {
        self.handlers.pop_first()
    }

    /// Opens the task, in place of any of its name.
    pub(crate) fn open_task(&mut self, alloc: Global, asked: Asked<P, B>) -> Result<(), AllocError>
        ensures { IfOk result (λ _. SetsOpenTask P.Lat.Event.cmp (open_in P.Lat.Event.cmp self.old) asked.task (Some asked) (open_in P.Lat.Event.cmp self.new)) }
    {
        match &self.first {
            Some(first) => match asked.task().cmp(first.task()) {
                Ordering::Less => match self.first.replace(asked) {
                    Some(second) => keep(alloc, &mut self.others, second),
                    None => Ok(()),
                },
                Ordering::Equal => {
                    self.first = Some(asked);
                    Ok(())
                }
                Ordering::Greater => keep(alloc, &mut self.others, asked),
            },
            None => {
                if is_below(asked.task(), &self.others) {
                    self.first = Some(asked);
                    return Ok(());
                }
                keep(alloc, &mut self.others, asked)
            }
        }
    }

    /// Opens the handler.
    pub(crate) fn open_handler(
        &mut self,
        handler: HandlerName<<P::Lat as Lattice>::Event>,
    ) -> Result<(), AllocError>
        ensures { IfOk result (λ _. HasHandler P.Lat.Event.cmp (open_in P.Lat.Event.cmp self.old) handler true (open_in P.Lat.Event.cmp self.new)) }
    {
        match self.handlers.insert(handler) {
            Ok(_) => Ok(()),
            Err(_) => Err(AllocError),
        }
    }
}

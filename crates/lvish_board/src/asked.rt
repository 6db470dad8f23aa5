ghost use Rattle.std.specs.Prelude.{◌≡◌, ◌⊎◌, None, Some, IfOk, IfErr, IfSome, MatchResult};
ghost use Rattle.lvish_calculus.specs.declared.label.Label.TheVariants.{Act};

use crate::board_brand::BoardBrand;
use crate::stand::Stand;
use crate::ticket::Ticket;
use lvish_calculus::{Asks, Meaning, Program, Request};
use lvish_core::{Core, CoreMeaning, Moved, StepFault, Stepped, TaskNumbers};
use lvish_history::Stamp;
use lvish_lattice::{Lattice, Reads};
use lvish_names::TaskName;
use std::alloc::{AllocError, Global};
use std::marker::Model;

/// A task at a local state, with what it asks for there.
pub struct Asked<P: Program, B: BoardBrand<P>> {
    ticket: Ticket<P, B>,
    request: Request<P::Lat, <P::Lat as Reads>::Read, P::Local>,
    // the local state in which it asks, in which a step goes on; `None` while it is parked, until it is made
    // anew, and after a step that was refused
    at: Option<P::Local>,
}

// Written out, so that it is proved once, and not at each exit of a function that owns one.
impl<P: Program, B: BoardBrand<P>> Drop for Asked<P, B> {
    #[inline(always)]
    fn drop(self) {
        let Asked {
            ticket: _,
            request: _,
            at: _,
        } = self;
    }
}

impl<P: Program, B: BoardBrand<P>> Model for Asked<P, B> {
    ghost use Rattle.std.specs.Prelude.{◌≡◌, IfSome};
    ghost use Rattle.lvish_board.specs.Stand.{TaskStand};

    ghost Value = { TaskStand P.Lat.Event P.Local };

    ghost view = { λ a. a.ticket };

    ghost invariant = { λ a. (a.request ≡ (P.functions B.program).request a.ticket.from) × IfSome a.at (λ l. l ≡ (P.functions B.program).at a.ticket.from) };
}

impl<P: Program, B: BoardBrand<P>> Asked<P, B> {
    pub(crate) fn new(
        ticket: Ticket<P, B>,
        asks: Asks<P::Lat, <P::Lat as Reads>::Read, P::Local>,
    ) -> Asked<P, B>
        requires request { asks.request ≡ (P.functions B.program).request ticket.from }
        requires at { asks.at ≡ (P.functions B.program).at ticket.from }
        ensures { result ≡ ticket }
    {
        let Asks { request, at } = asks;
        Asked {
            ticket,
            request,
            at: Some(at),
        }
    }

    /// The task's name.
    pub fn task(&self) -> &TaskName<<P::Lat as Lattice>::Event>
        ensures { result.now ≡ self.now.task }
    {
        self.ticket.task()
    }

    /// The stamp that the board gave the task here.
    #[inline(always)]
    pub(crate) fn stamp(&self) -> &Stamp<Stand<P>, B>
        ensures { (result.now.value ≡ None) ⊎ (result.now.value ≡ Some self.now) }
    {
        self.ticket.stamp()
    }

    /// The index under which the board gave it.
    #[inline(always)]
    pub(crate) fn index(&self) -> usize {
        self.ticket.index()
    }

    /// The local state in which it asks.
    pub(crate) fn from(&self) -> &P::Local
        ensures { result.now ≡ self.now.from }
    {
        self.ticket.from()
    }

    /// The local state in which its step goes on, where it is known.
    #[inline(always)]
    pub fn at(&self) -> Option<&P::Local>
        ensures { IfSome result (λ l. l.now ≡ (P.functions B.program).at self.now.from) }
    {
        self.at.as_ref()
    }

    /// What it asks for.
    pub(crate) fn request(&self) -> &Request<P::Lat, <P::Lat as Reads>::Read, P::Local>
        ensures { result.now ≡ (P.functions B.program).request self.now.from }
    {
        &self.request
    }

    /// Makes the task's step on the core, where it stands with these numbers.
    ///
    /// # Errors
    ///
    /// As the core's; nothing has changed.
    #[inline(always)]
    pub(crate) fn step(
        &mut self,
        alloc: Global,
        core: &mut Core<'_, P>,
        numbers: TaskNumbers,
    ) -> Result<(Stepped, Moved<<P::Lat as Lattice>::Event, P::Local>), StepFault>
        requires program { core.old.program ≡ B.program }
        requires live { ⟦<P as CoreMeaning>⟧.is_live core.old self.old.task self.old.from numbers }
        ensures stepped { MatchResult result (λ s. ⟦<P as CoreMeaning>⟧.is_step core.old (Act self.old.task) core.new s.0) (λ e. ⟦<P as CoreMeaning>⟧.is_refused core.old (Act self.old.task) e × (core.new ≡ core.old)) }
        ensures moved { IfOk result (λ s. ⟦<P as CoreMeaning>⟧.is_moved core.old (Act self.old.task) s.1) }
        ensures same { self.new ≡ self.old }
    {
        let at = match self.at.take() {
            Some(at) => at,
            None => place_of(alloc, core.program(), self.ticket.from())?,
        };
        self.at = Some(at);
        core.step_live(
            alloc,
            self.ticket.task(),
            numbers,
            &self.request,
            &mut self.at,
        )
    }

    /// Gives away the local state in which it asks, of which no use is made as long as it is blocked.
    #[inline(always)]
    pub(crate) fn rest(&mut self) -> Option<P::Local>
        ensures { self.new ≡ self.old }
    {
        self.at.take()
    }

    /// Makes the local state in which it asks anew, where it was given back, so that its step needn't. It
    /// may lie in the memory of `spare`, a local state that nobody needs any more.
    ///
    /// # Errors
    ///
    /// Where there is no room for it.
    #[inline(always)]
    pub fn prepare(
        &mut self,
        alloc: Global,
        program: &P,
        spare: Option<P::Local>,
    ) -> Result<(), AllocError>
        requires program { program.now ≡ B.program }
        ensures { self.new ≡ self.old }
    {
        if self.at.is_none() {
            let Asks { request: _, at } = program.ask_with(alloc, self.ticket.from(), spare)?;
            self.at = Some(at);
        }
        Ok(())
    }

    /// The local state in which it asked, which is of no more use than its memory.
    #[inline(always)]
    pub fn into_from(self) -> P::Local
        ensures { result ≡ self.from }
    {
        let Asked {
            ticket,
            request: _,
            at: _,
        } = self;
        ticket.into_from()
    }

    /// Takes out the task's name, and leaves another.
    #[inline(always)]
    pub(crate) fn take_task(&mut self) -> TaskName<<P::Lat as Lattice>::Event>
        ensures { result ≡ self.old.task }
    {
        self.ticket.take_task()
    }
}

/// The local state in which a task asks, once more. It isn't inlined, since only a step that was
/// refused needs it.
///
/// # Errors
///
/// Where there is no room for it.
#[inline(never)]
fn place_of<P: Program>(alloc: Global, program: &P, from: &P::Local) -> Result<P::Local, AllocError>
    ensures { IfOk result (λ l. l ≡ (P.functions program.now).at from.now) }
{
    let Asks { request: _, at } = program.ask(alloc, from)?;
    Ok(at)
}

/// Runs the task's local statements, up to what it asks for.
///
/// # Errors
///
/// Where there is no room for it, the ticket.
pub fn stretch<P: Program, B: BoardBrand<P>>(
    alloc: Global,
    program: &P,
    ticket: Ticket<P, B>,
) -> Result<Asked<P, B>, Ticket<P, B>>
    requires program { program.now ≡ B.program }
    ensures ok { IfOk result (λ a. a ≡ ticket) }
    ensures err { IfErr result (λ t. t ≡ ticket) }
{
    stretch_with(alloc, program, ticket, None)
}

/// Does what [`stretch`] does. What it makes may lie in the memory of `spare`, a local state that
/// nobody needs any more.
///
/// # Errors
///
/// Where there is no room for it, the ticket.
#[inline(always)]
pub fn stretch_with<P: Program, B: BoardBrand<P>>(
    alloc: Global,
    program: &P,
    ticket: Ticket<P, B>,
    spare: Option<P::Local>,
) -> Result<Asked<P, B>, Ticket<P, B>>
    requires program { program.now ≡ B.program }
    ensures ok { IfOk result (λ a. a ≡ ticket) }
    ensures err { IfErr result (λ t. t ≡ ticket) }
{
    match program.ask_with(alloc, ticket.from(), spare) {
        Ok(asks) => Ok(Asked::new(ticket, asks)),
        Err(_refused) => Err(ticket),
    }
}

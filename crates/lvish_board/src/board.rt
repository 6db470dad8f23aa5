ghost use Rattle.std.specs.Prelude.{◌≡◌, ◌≤◌, [], IfErr, IfOk, option_copied};
ghost use Rattle.lvish_names.specs.Names.{main};
ghost use Rattle.lvish_board.specs.declared.work.Work.TheVariants.{Stretch};
ghost use Rattle.std.specs.List.{AllByRecursion};
ghost use Rattle.lvish_core.specs.Tasks.{task_names};
ghost use Rattle.lvish_trace.specs.Packed.{IsPacked, entries_of};
ghost use Rattle.lvish_board.specs.Board.{IsBoardSound, IsOpened};

mod act;
mod hand;
mod make;
mod note_end;

use crate::board_brand::BoardBrand;
use crate::newest::Newest;
use crate::parked::Parked;
use crate::room::Room;
use crate::stand::Stand;
use crate::ticket::Ticket;
use crate::work::Work;
use lvish_calculus::{Meaning, Program};
use lvish_core::{Core, CoreMeaning, MOST_PROGRAM_STEPS};
use lvish_history::{Opened, Stamp};
use lvish_lattice::Lattice;
use lvish_names::TaskName;
use lvish_trace::{Outcome, PackedStep, TraceEntry, entry_by};
use std::alloc::{AllocError, Global};
use std::marker::Model;

/// A core, the trace of its steps, and the parked tasks.
pub struct Board<'p, P: Program, B: BoardBrand<P>> {
    core: Core<'p, P>,
    // by which it knows tickets without a look at their local states
    newest: Newest<P, B>,
    trace: Vec<PackedStep>,
    budget: u64,
    over: Option<Outcome<<P::Lat as Lattice>::Event>>,
    parked: Parked<P, B>,
    room: Room<P, B>,
}

// Written out, so that it is proved once, and not at each exit of a function that owns one.
impl<'p, P: Program, B: BoardBrand<P>> Drop for Board<'p, P, B> {
    fn drop(self) {
        let Board {
            core: _,
            newest: _,
            trace: _,
            budget: _,
            over: _,
            parked: _,
            room: _,
        } = self;
    }
}

impl<'p, P: Program, B: BoardBrand<P>> Model for Board<'p, P, B> {
    ghost use Rattle.std.specs.Prelude.{◌≡◌};
    ghost use Rattle.lvish_calculus.specs.Program.{machine_of};
    ghost use Rattle.std.specs.List.{AllByRecursion};
    ghost use Rattle.lvish_core.specs.Tasks.{task_names};
    ghost use Rattle.lvish_trace.specs.Packed.{IsPacked, entries_of};
    ghost use Rattle.lvish_board.specs.Newest.{AreKnown};
    ghost use Rattle.lvish_board.specs.Seated.{AreIndexed, stands_of};
    ghost use Rattle.lvish_board.specs.Board.{Standing, IsBoardSound};

    ghost Value = { Standing P P.Lat P.Lat.Event P.Local };

    ghost view = { λ b. record { trace = entries_of (task_names b.core.table.tasks) b.trace.items; core = b.core; over = b.over; parked = stands_of b.parked } };

    ghost invariant = { λ b. (b.budget ≡ B.budget) × AllByRecursion (IsPacked (task_names b.core.table.tasks)) b.trace.items × IsBoardSound (machine_of P.Lat.eq P.Lat.Event.eq P.Lat.Event.cmp P.Lat.least P.Lat.joined P.Lat.events_of P.Lat.answer_of (P.functions B.program)) B.program B.budget (record { trace = entries_of (task_names b.core.table.tasks) b.trace.items; core = b.core; over = b.over; parked = stands_of b.parked }) × AreKnown (machine_of P.Lat.eq P.Lat.Event.eq P.Lat.Event.cmp P.Lat.least P.Lat.joined P.Lat.events_of P.Lat.answer_of (P.functions B.program)) b.core b.newest × AreIndexed b.core.table.tasks b.parked };
}

impl<'p, P: Program, B: BoardBrand<P>> Board<'p, P, B> {
    /// A board of the program at its start, and the first work: `main`'s.
    ///
    /// # Errors
    ///
    /// Where there is no room for it, the history.
    pub fn new(
        alloc: Global,
        program: &'p P,
        budget: u64,
        history: Opened<Stand<P>>,
    ) -> Result<(Board<'p, P, B>, Work<P, B>), Opened<Stand<P>>>
        requires program { program.now ≡ B.program }
        requires budget { budget ≡ B.budget }
        requires history { history.seen.book ≡ B.book }
        requires bounded { B.budget ≤ MOST_PROGRAM_STEPS }
        ensures board { IfOk result (λ r. IsOpened (⟦<P as Meaning>⟧.machine B.program) B.program r.0) }
        ensures first { IfOk result (λ r. r.1 ≡ Stretch (record { task = main; from = (P.functions B.program).start })) }
        ensures err { IfErr result (λ h. h ≡ history) }
    {
        let Ok((from, core, room)) = begun(alloc, program) else {
            return Err(history);
        };
        let newest = Newest::new(history, room);
        let first = Ticket::unknown(TaskName::main(), from, &newest);
        let board = Board {
            core,
            newest,
            trace: Vec::new(alloc),
            budget,
            over: None,
            parked: Parked::new(alloc),
            room: Room::new(alloc),
        };
        Ok((board, Work::Stretch(first)))
    }

    /// A ticket of another board of the program, for this one: as good as its own where its task stands
    /// there.
    pub fn adopt<K: BoardBrand<P>>(&self, ticket: Ticket<P, K>) -> Ticket<P, B>
        ensures { result ≡ ticket }
    {
        Ticket::of_another(ticket, &self.newest)
    }

    /// How the board is over; `None` where it isn't.
    pub fn over(&self) -> Option<&Outcome<<P::Lat as Lattice>::Event>>
        ensures over { option_copied result ≡ self.now.over }
        ensures sound { IsBoardSound (⟦<P as Meaning>⟧.machine B.program) B.program B.budget self.now }
    {
        self.over.as_ref()
    }

    /// The steps that were made, in their order, by the indices of their tasks.
    pub fn noted(&self) -> &[PackedStep]
        ensures trace { self.now.trace ≡ entries_of (task_names self.now.core.table.tasks) result.now }
        ensures sound { IsBoardSound (⟦<P as Meaning>⟧.machine B.program) B.program B.budget self.now }
    {
        &self.trace
    }

    /// The steps that were made, in their order, with their labels.
    ///
    /// # Errors
    ///
    /// Where there is no room for them.
    pub fn entries(
        &self,
        alloc: Global,
    ) -> Result<Vec<TraceEntry<<P::Lat as Lattice>::Event>>, AllocError>
        ensures { IfOk result (λ v. v.items ≡ self.now.trace) }
    {
        let mut entries = Vec::with_capacity(alloc, self.trace.len())?;
        for noted in self.trace.as_slice() {
            let name = self.core.name_at(noted.step().index());
            entries.push_reserved(entry_by(*noted, name)?);
        }
        Ok(entries)
    }

    /// The core, to which the trace leads.
    pub fn core(&self) -> &Core<'p, P>
        ensures core { result.now ≡ self.now.core }
        ensures sound { IsBoardSound (⟦<P as Meaning>⟧.machine B.program) B.program B.budget self.now }
    {
        &self.core
    }

    /// The core, and the steps that were made, in their order, without a copy.
    pub fn into_parts(self) -> (Core<'p, P>, Vec<PackedStep>)
        ensures core { result.0 ≡ self.entry.core }
        ensures trace { self.entry.trace ≡ entries_of (task_names result.0.table.tasks) result.1.items }
        ensures noted { AllByRecursion (IsPacked (task_names result.0.table.tasks)) result.1.items }
        ensures sound { IsBoardSound (⟦<P as Meaning>⟧.machine B.program) B.program B.budget self.entry }
    {
        let Board {
            core,
            newest: _,
            trace,
            budget: _,
            over: _,
            parked: _,
            room: _,
        } = self;
        (core, trace)
    }
}

/// The local state in which `main` starts, a core at the start, and room for a stamp of each of its
/// tasks.
///
/// # Errors
///
/// Where there is no room for it.
fn begun<'p, P: Program, B: BoardBrand<P>>(
    alloc: Global,
    program: &'p P,
) -> Result<(P::Local, Core<'p, P>, Vec<Stamp<Stand<P>, B>>), AllocError>
    ensures from { IfOk result (λ r. r.0 ≡ (P.functions program.now).start) }
    ensures core { IfOk result (λ r. ⟦<P as CoreMeaning>⟧.is_begun program.now r.1) }
    ensures room { IfOk result (λ r. r.2.items ≡ []) }
{
    let from = program.start(alloc)?;
    let core = Core::new(alloc, program)?;
    let room = Vec::with_capacity(alloc, 1)?;
    Ok((from, core, room))
}

ghost use Rattle.std.specs.Prelude.{◌≡◌, ◌⊎◌, None, Some, IfOk};
ghost use Rattle.lvish_board.specs.Newest.{IsSetAt};

use crate::board_brand::BoardBrand;
use crate::newest::Newest;
use crate::stand::Stand;
use lvish_calculus::Program;
use lvish_history::Stamp;
use lvish_lattice::Lattice;
use lvish_names::TaskName;
use std::alloc::{AllocError, Global};
use std::marker::Model;

/// A task at a local state.
pub struct Ticket<P: Program, B: BoardBrand<P>> {
    stand: Stand<P>,
    // the task's stamp there, and its index, by which its board knows whether it stands there yet
    stamp: Stamp<Stand<P>, B>,
    index: u32,
}

// Written out, so that it is proved once, and not at each exit of a function that owns one.
impl<P: Program, B: BoardBrand<P>> Drop for Ticket<P, B> {
    fn drop(self) {
        let Ticket {
            stand: _,
            stamp: _,
            index: _,
        } = self;
    }
}

impl<P: Program, B: BoardBrand<P>> Model for Ticket<P, B> {
    ghost use Rattle.std.specs.Prelude.{◌≡◌, ◌⊎◌, None, Some};
    ghost use Rattle.lvish_board.specs.Stand.{TaskStand};

    ghost Value = { TaskStand P.Lat.Event P.Local };

    ghost view = { λ t. t.stand };

    ghost invariant = { λ t. (t.stamp.value ≡ None) ⊎ (t.stamp.value ≡ Some t.stand) };
}

impl<P: Program, B: BoardBrand<P>> Ticket<P, B> {
    /// A ticket of a task at this local state, where the board of these stamps hasn't seen it.
    pub(crate) fn unknown(
        task: TaskName<<P::Lat as Lattice>::Event>,
        from: P::Local,
        newest: &Newest<P, B>,
    ) -> Ticket<P, B>
        ensures { result ≡ record { task = task; from = from } }
    {
        Ticket::at(Stand::new(task, from), newest)
    }

    /// A ticket of a task at this place, where the board of these stamps hasn't seen it.
    fn at(stand: Stand<P>, newest: &Newest<P, B>) -> Ticket<P, B>
        ensures { result ≡ stand }
    {
        Ticket {
            stand,
            stamp: newest.none(),
            index: 0,
        }
    }

    /// The ticket of a board of another name, for the board of these stamps.
    pub(crate) fn of_another<K: BoardBrand<P>>(
        ticket: Ticket<P, K>,
        newest: &Newest<P, B>,
    ) -> Ticket<P, B>
        ensures { result ≡ ticket }
    {
        Ticket::at(ticket.into_stand(), newest)
    }

    #[inline(always)]
    fn into_stand(self) -> Stand<P>
        ensures { result ≡ self }
    {
        let Ticket {
            stand,
            stamp: _,
            index: _,
        } = self;
        stand
    }

    /// A ticket of a task that stands here, as the board of these stamps knows from then on.
    #[inline(always)]
    pub(crate) fn new(
        task: TaskName<<P::Lat as Lattice>::Event>,
        from: P::Local,
        index: usize,
        newest: &mut Newest<P, B>,
    ) -> Ticket<P, B>
        ensures stand { result ≡ record { task = task; from = from } }
        ensures newest { IsSetAt index (Some (record { task = task; from = from })) newest.old newest.new }
    {
        let stand = Stand::new(task, from);
        let stamp = newest.set(index, &stand);
        Ticket {
            stand,
            stamp,
            index: (index % 0x1_0000_0000) as u32,
        }
    }

    /// The task's name.
    pub fn task(&self) -> &TaskName<<P::Lat as Lattice>::Event>
        ensures { result.now ≡ self.now.task }
    {
        self.stand.task()
    }

    /// The local state.
    pub(crate) fn from(&self) -> &P::Local
        ensures { result.now ≡ self.now.from }
    {
        self.stand.from()
    }

    /// The stamp that the board gave the task here.
    #[inline(always)]
    pub(crate) fn stamp(&self) -> &Stamp<Stand<P>, B>
        ensures { (result.now.value ≡ None) ⊎ (result.now.value ≡ Some self.now) }
    {
        &self.stamp
    }

    /// The index under which the board gave it.
    #[inline(always)]
    pub(crate) fn index(&self) -> usize {
        self.index as usize
    }

    /// The local state.
    #[inline(always)]
    pub(crate) fn into_from(self) -> P::Local
        ensures { result ≡ self.from }
    {
        self.into_stand().into_from()
    }

    /// Takes out the task's name, and leaves another.
    #[inline(always)]
    pub(crate) fn take_task(&mut self) -> TaskName<<P::Lat as Lattice>::Event>
        ensures task { result ≡ self.old.task }
        ensures from { self.new.from ≡ self.old.from }
    {
        self.stamp = self.stamp.none();
        self.stand.take_task()
    }

    /// An equal ticket.
    ///
    /// # Errors
    ///
    /// Where there is no room for it.
    pub fn copy(&self, alloc: Global, program: &P) -> Result<Ticket<P, B>, AllocError>
        ensures { IfOk result (λ t. t ≡ self.now) }
    {
        let task = self.stand.task().copy()?;
        let from = program.copy_local(alloc, self.stand.from())?;
        Ok(Ticket {
            stand: Stand::new(task, from),
            stamp: self.stamp.copy(),
            index: self.index,
        })
    }
}

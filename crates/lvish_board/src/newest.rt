//! The newest stamps of the tasks.

ghost use Rattle.std.specs.Prelude.{◌≡◌, ◌≤◌, ◌⊎◌, [], None, Some, IsTrue, length};
ghost use Rattle.lvish_board.specs.Stand.{TaskStand};
ghost use Rattle.lvish_board.specs.Newest.{IsSetAt, known_at, values_of};

use crate::board_brand::BoardBrand;
use crate::stand::Stand;
use lvish_calculus::Program;
use lvish_history::{History, Opened, Stamp};
use std::alloc::AllocError;
use std::marker::Model;

/// The newest stamp of each task, by the task's index: that of nothing where it has ended.
pub(crate) struct Newest<P: Program, B: BoardBrand<P>> {
    history: History<Stand<P>, B>,
    stamps: Vec<Stamp<Stand<P>, B>>,
}

// Written out, so that it is proved once, and not at each exit of a function that owns one.
impl<P: Program, B: BoardBrand<P>> Drop for Newest<P, B> {
    fn drop(self) {
        let Newest {
            history: _,
            stamps: _,
        } = self;
    }
}

impl<P: Program, B: BoardBrand<P>> Model for Newest<P, B> {
    ghost use Rattle.std.specs.Prelude.{List, Option};
    ghost use Rattle.lvish_board.specs.Stand.{TaskStand};
    ghost use Rattle.lvish_board.specs.Newest.{values_of};

    ghost Value = { List (Option (TaskStand P.Lat.Event P.Local)) };

    ghost view = { λ n. values_of n.stamps.items };
}

impl<P: Program, B: BoardBrand<P>> Newest<P, B> {
    /// Nothing is known of any task.
    pub(crate) fn new(history: Opened<Stand<P>>, room: Vec<Stamp<Stand<P>, B>>) -> Newest<P, B>
        requires book { history.seen.book ≡ B.book }
        requires empty { room.items ≡ [] }
        ensures { result ≡ [] }
    {
        Newest {
            history: history.named(),
            stamps: room,
        }
    }

    /// Makes room for one more task.
    ///
    /// # Errors
    ///
    /// Where there is none.
    pub(crate) fn reserve(&mut self) -> Result<(), AllocError>
        ensures { self.new ≡ self.old }
    {
        self.stamps.reserve(1)
    }

    /// Whether this is the newest stamp of the task at the index.
    #[inline(always)]
    pub(crate) fn is(&self, index: usize, stamp: &Stamp<Stand<P>, B>) -> bool
        ensures { IsTrue result → (p : TaskStand P.Lat.Event P.Local) × (known_at self.now index ≡ Some p) × (stamp.now.value ≡ Some p) }
    {
        match self.stamps.get(index) {
            Some(newest) => newest.is(stamp),
            None => false,
        }
    }

    /// A stamp for the place where the task at the index stands from then on.
    #[inline(always)]
    pub(crate) fn set(&mut self, index: usize, stand: &Stand<P>) -> Stamp<Stand<P>, B>
        ensures stamp { (result.value ≡ None) ⊎ (result.value ≡ Some stand.now) }
        ensures set { IsSetAt index (Some stand.now) self.old self.new }
    {
        let stamp = self.history.stamp(stand);
        put_at(&mut self.stamps, index, stamp.copy());
        stamp
    }

    /// The stamp of no place.
    #[inline(always)]
    pub(crate) fn none(&self) -> Stamp<Stand<P>, B>
        ensures { result.value ≡ None }
    {
        self.history.none()
    }

    /// The task at the index has ended.
    pub(crate) fn clear(&mut self, index: usize)
        ensures { IsSetAt index None self.old self.new }
    {
        let none = self.none();
        put_at(&mut self.stamps, index, none);
    }
}

/// Puts the stamp at the index of the list, or behind its last one.
#[inline(always)]
fn put_at<P: Program, B: BoardBrand<P>>(
    stamps: &mut Vec<Stamp<Stand<P>, B>>,
    index: usize,
    stamp: Stamp<Stand<P>, B>,
)
    ensures { IsSetAt index stamp.value (values_of stamps.old.items) (values_of stamps.new.items) }
{
    match stamps.get_mut(index) {
        Some(newest) => *newest = stamp,
        None => push_at(stamps, index, stamp),
    }
}

/// Puts the stamp behind the last one, if its index comes next.
#[inline(never)]
fn push_at<P: Program, B: BoardBrand<P>>(
    stamps: &mut Vec<Stamp<Stand<P>, B>>,
    index: usize,
    stamp: Stamp<Stand<P>, B>,
)
    requires { length stamps.old.items ≤ index }
    ensures { IsSetAt index stamp.value (values_of stamps.old.items) (values_of stamps.new.items) }
{
    if stamps.len() == index {
        let _ = stamps.push(stamp);
    }
}

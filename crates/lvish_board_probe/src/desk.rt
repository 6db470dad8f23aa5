//! What a board is asked, whatever its program is and its name.

use std::alloc::{AllocError, Global};
use std::mem;

/// What a board answers to work, with the work that it leaves or gives back.
#[derive(Drop)]
pub enum Told<W> {
    Over,
    Stale,
    Parked,
    Memory(W),
    Next(Vec<W>),
    Gone(Vec<W>),
}

impl<W: Drop> Told<W> {
    /// Takes out the work that came back for want of memory, if that was answered.
    pub fn take_back(&mut self) -> Option<W> {
        match mem::replace(self, Told::Over) {
            Told::Memory(work) => Some(work),
            told => {
                *self = told;
                None
            }
        }
    }
}

/// A board and its program, with work of this type.
pub trait Desk<W> {
    /// Does the work, and lists what is left.
    fn tell(&mut self, alloc: Global, work: W) -> Result<Told<W>, AllocError>;

    /// A copy of work that is a ticket; none of other work.
    fn copied(&self, alloc: Global, work: &W) -> Result<Option<W>, AllocError>;

    /// The handing by main's handler with this number.
    fn handing(&self, number: u64) -> Result<W, AllocError>;

    /// What the work is, and the name of its task or handler.
    fn text(&self, alloc: Global, work: &W) -> Result<String, AllocError>;

    /// Whether the board is over.
    fn is_over(&self) -> bool;

    /// Writes how the board is over.
    fn write_over(&self, text: &mut String) -> Result<(), AllocError>;

    /// Writes what shows of the board.
    fn write_machine(&self, alloc: Global, text: &mut String) -> Result<(), AllocError>;
}

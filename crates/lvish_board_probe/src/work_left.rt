//! Work that was left.

use std::alloc::AllocError;

/// Pieces of work, in the order in which they were left.
pub struct WorkLeft<W: Drop> {
    works: Vec<W>,
}

// Written out, so that it is proved once, and not at each exit of a function that owns one.
impl<W: Drop> Drop for WorkLeft<W> {
    fn drop(self) {
        let WorkLeft { works: _ } = self;
    }
}

impl<W: Drop> WorkLeft<W> {
    /// These pieces.
    pub fn of(works: Vec<W>) -> WorkLeft<W> {
        WorkLeft { works }
    }

    /// The pieces in a list.
    pub fn into_works(self) -> Vec<W> {
        let WorkLeft { works } = self;
        works
    }

    pub fn works(&self) -> &[W] {
        &self.works
    }

    /// Keeps a piece.
    pub fn keep(&mut self, work: W) -> Result<(), AllocError> {
        self.works.push(work)?;
        Ok(())
    }

    /// Keeps these pieces, which are moved out of their list.
    pub fn keep_all(&mut self, works: &mut Vec<W>) -> Result<(), AllocError> {
        self.works.append(works)
    }

    /// Takes out the piece at this place, if there is one.
    pub fn take_at(&mut self, place: usize) -> Option<W> {
        if place >= self.works.len() {
            return None;
        }
        Some(self.works.remove(place))
    }
}

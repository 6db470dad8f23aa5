ghost use Rattle.std.specs.Prelude.{◌≡◌, IfOk};

use lvish_board::{Asked, BoardBrand};
use lvish_calculus::Program;
use std::alloc::{AllocError, Global};
use std::marker::Model;

/// A task with what it asks for, in memory of its own, so that the nodes of a tree of such are small.
pub(crate) struct BoxedAsked<P: Program, B: BoardBrand<P>> {
    asked: Box<Asked<P, B>>,
}

// Written out, so that it is proved once, and not at each exit of a function that owns one.
impl<P: Program, B: BoardBrand<P>> Drop for BoxedAsked<P, B> {
    fn drop(self) {
        let BoxedAsked { asked: _ } = self;
    }
}

impl<P: Program, B: BoardBrand<P>> Model for BoxedAsked<P, B> {
    ghost use Rattle.lvish_board.specs.Stand.{TaskStand};

    ghost Value = { TaskStand P.Lat.Event P.Local };

    ghost view = { λ b. b.asked.value };
}

impl<P: Program, B: BoardBrand<P>> BoxedAsked<P, B> {
    pub(crate) fn new(alloc: Global, asked: Asked<P, B>) -> Result<BoxedAsked<P, B>, AllocError>
        ensures { IfOk result (λ b. b ≡ asked) }
    {
        Ok(BoxedAsked {
            asked: Box::new(alloc, asked)?,
        })
    }

    pub(crate) fn into_asked(self) -> Asked<P, B>
        ensures { result ≡ self }
    {
        let BoxedAsked { asked } = self;
        Box::into_inner(asked)
    }
}

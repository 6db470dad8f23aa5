//! Names for boards and their work, in types. Each run picks its own.

use crate::runnable::Runnable;
use lvish_board::BoardBrand;
use lvish_history::Origin;
use std::marker::{Brand, PhantomData};

/// Which program is run, in how many steps at most, and where its tickets have their stamps from. A call picks them.
///
/// It may be no program, so that one impl serves the programs of all types.
pub trait Naming<P>: Origin {
    ghost use Rattle.std.specs.Prelude.{ℕ, Option};

    ghost program: { Option P };

    ghost budget: { ℕ };
}

impl<P> Naming<P> for Brand {
    ghost use Rattle.std.specs.Prelude.{None};

    ghost program = { None };

    ghost budget = { 0 };
}

/// How many workers work at a board: a name for it, in the type that names the board.
pub trait Staff {
    ghost use Rattle.std.specs.Prelude.{ℕ};

    ghost workers: { ℕ };
}

impl Staff for Brand {
    ghost workers = { 0 };
}

/// What a board and its work are named by.
#[derive(Drop)]
pub struct Of<N> {
    of: PhantomData<N>,
}

impl<N: Origin> Origin for Of<N> {
    ghost book = { N.book };
}

impl<P: Runnable, N: Naming<P>> BoardBrand<P> for Of<N> {
    ghost use Rattle.std.specs.Option.{unwrap_or};

    ghost program = { unwrap_or N.program P.blank };

    ghost budget = { N.budget };
}

impl<N: Staff> Staff for Of<N> {
    ghost workers = { N.workers };
}

//! A board's program and budget, named by a type that a call picks.

use lvish_board::BoardBrand;
use lvish_history::Origin;
use lvish_task::ScriptCode;
use std::marker::{Brand, PhantomData};

/// Which code a board runs, how many steps it may make, and where its tickets have their stamps from.
/// A call picks them.
pub trait Naming: Origin {
    ghost use Rattle.std.specs.Prelude.{ℕ};
    ghost use Rattle.lvish_task.specs.declared.script_code.ScriptCode.{ScriptCode};

    ghost code: { ScriptCode };

    ghost budget: { ℕ };
}

impl Naming for Brand {
    ghost use Rattle.lvish_task.specs.NoCode.{no_code};

    ghost code = { no_code };

    ghost budget = { 0 };
}

/// The name of a board.
pub struct Of<N: Naming> {
    of: PhantomData<N>,
}

impl<N: Naming> Origin for Of<N> {
    ghost book = { N.book };
}

impl<N: Naming> BoardBrand<ScriptCode> for Of<N> {
    ghost program = { N.code };

    ghost budget = { N.budget };
}

//! When a board is over.

ghost use Rattle.std.specs.Prelude.{◌≡◌, None, length};
ghost use Rattle.lvish_board.specs.Seated.{stands_of};
ghost use Rattle.lvish_board.specs.Board.{TellsEnd};

use crate::board_brand::BoardBrand;
use crate::parked::Parked;
use lvish_calculus::laws::lawful;
use lvish_calculus::{Meaning, Program};
use lvish_core::Core;
use lvish_lattice::Lattice;
use lvish_trace::Outcome;

/// Tells the end of a board with this core and these parked tasks, where every task that hasn't ended is
/// parked and every handler drained. How the board is over stands where the board keeps it, so that most
/// steps write nothing there.
pub(super) fn note_end<P: Program, B: BoardBrand<P>>(
    core: &Core<'_, P>,
    parked: &Parked<P, B>,
    over: &mut Option<Outcome<<P::Lat as Lattice>::Event>>,
)
    requires program { core.now.program ≡ B.program }
    requires running { over.old ≡ None }
    ensures { TellsEnd (⟦<P as Meaning>⟧.machine B.program) core.now (length (stands_of parked.now)) over.new }
{
    lawful::<P>();
    if parked.len() == core.running() && core.is_drained() {
        *over = Some(Outcome::Ended);
    }
}

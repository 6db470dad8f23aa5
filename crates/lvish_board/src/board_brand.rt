use lvish_calculus::Program;
use lvish_history::Origin;

/// Which program a board runs, how many steps it may make, and where its tickets have their stamps
/// from: a name for these, in a type.
///
/// Tickets, work and boards carry the name, so work from a list, a lock or a deque fits its board by
/// its type.
pub trait BoardBrand<P: Program>: Origin {
    ghost use Rattle.std.specs.Prelude.{ℕ};

    ghost program: { P };

    ghost budget: { ℕ };
}

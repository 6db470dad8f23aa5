ghost use Rattle.std.specs.Prelude.{IfOk, IfErr};
ghost use Rattle.lvish_handlers.specs.Handlers.{IsByName};
ghost use Rattle.lvish_handlers.specs.Places.{IsAt, IsGap};

use lvish_lattice::Plain;
use lvish_names::HandlerName;

/// A handler: the pool in which its tasks run, the procedure that they run, and how many entries
/// of the variable's log it was handed.
#[derive(Debug)]
pub struct Held<E> {
    pub name: HandlerName<E>,
    pub pool: usize,
    pub procedure: usize,
    pub handed: usize,
}

// Written out, so that it is proved once, and not at each exit of a function that owns one.
impl<E: Drop> Drop for Held<E> {
    fn drop(self) {
        let Held {
            name: _,
            pool: _,
            procedure: _,
            handed: _,
        } = self;
    }
}

/// Where the handler of this name is, or where it would go.
pub(crate) fn place_of<E: Plain>(held: &[Held<E>], name: &HandlerName<E>) -> Result<usize, usize>
    requires { IsByName E.cmp held.now }
    ensures found { IfOk result (IsAt held.now name.now) }
    ensures gap { IfErr result (IsGap E.cmp held.now name.now) }
{
    held.binary_search_by(|handler| handler.name.cmp(name))
}

//! Whether anything is still to be handed.

ghost use Rattle.std.specs.Prelude.{◌↔◌, IsTrue};
ghost use Rattle.lvish_core.specs.Reads.{AreWithin, IsAllHanded, IsHandedAt};

use lvish_handlers::Handlers;
use lvish_lattice::Lattice;
use lvish_variable::Variable;

/// Whether every handler beside a variable was handed the whole log of its variable.
pub(crate) fn are_drained<L: Lattice>(variables: &[Variable<L>], handlers: &[Handlers<L>]) -> bool
    requires { AreWithin variables.now handlers.now }
    ensures { IsTrue result ↔ IsAllHanded variables.now handlers.now }
{
    for (variable, handlers) in variables.iter().zip(handlers.iter()) {
        if !handlers.drained(variable) {
            return false;
        }
    }
    true
}

/// Whether every handler beside the variable of this number was handed the whole log of the variable.
pub(crate) fn is_drained_at<L: Lattice>(
    variables: &[Variable<L>],
    handlers: &[Handlers<L>],
    variable: usize,
) -> bool
    requires { AreWithin variables.now handlers.now }
    ensures { IsTrue result ↔ IsHandedAt variables.now handlers.now variable }
{
    let Some(beside) = handlers.get(variable) else {
        return true;
    };
    let Some(variable) = variables.get(variable) else {
        return true;
    };
    beside.drained(variable)
}

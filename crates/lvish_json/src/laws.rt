//! What an object has, as a contract of a function with no code.

ghost use Rattle.lvish_json.specs.Retold.{AreRetold};

use lvish_lattice::{Numbered, Plain};

/// The text of any report can be printed again from what is told of it, and from nothing else.
pub fn reports_are_retold<E: Plain + Numbered>()
    ensures { AreRetold E.key_of E.number_of }
{}

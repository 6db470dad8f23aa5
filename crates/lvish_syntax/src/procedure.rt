use crate::identifier::{Identifier, Identifiers};
use crate::statement::Block;
use lvish_base::Items;

/// A procedure: its name, its parameters in order and its statements.
#[derive(Drop)]
pub struct Procedure {
    pub name: Identifier,
    pub parameters: Identifiers,
    pub body: Block,
}

/// The procedures of a script in the order of their `proc` lines.
pub type Procedures = Items<Procedure>;

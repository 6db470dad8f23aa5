//! The flat code of scripts.
//!
//! Code has numbers in place of names, and jumps in place of nested blocks: an `if` skips its block,
//! and a `while` tests once in front of its block and again behind it, from where it goes back. So
//! each jump back is a counted test, and jumps that aren't counted go forward.
#![tactic(auto)]

mod code;
mod compile;
mod expression;
mod instruction;
pub mod laws;
mod locals;
mod numbering;
mod operand;
mod routine;
mod scope;
mod tables;
mod target;
mod wanted;

pub use code::Code;
pub use expression::Expression;
pub use instruction::{Action, Indices, Instruction, Instructions};
pub use operand::{Operand, Operands};
pub use routine::Routine;
pub use target::{Side, Target};
pub use wanted::Wanted;

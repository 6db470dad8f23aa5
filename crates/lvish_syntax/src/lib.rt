//! The syntax of scripts: declarations, and procedures with nested statements.
//!
//! A [`Script`] keeps by its type what is promised to those who run it: every name in it is
//! declared, each statement fits the kind of its variable, counts of terms and parameters agree,
//! the tables are within their limits, and all of it stands in its [`Version`] (`IsSound`).
//! `lvish_script` reads scripts and writes them; this crate says what they are.
//!
//! ```text
//! for procedure in script.procedures() {
//!     for statement in &procedure.body.items {
//!         if let Statement::While(test, body) = statement { .. }
//!     }
//! }
//! ```
#![tactic(auto)]

mod command;
mod declaration;
mod identifier;
mod kind;
mod let_value;
mod limits;
mod operator;
mod procedure;
mod script;
mod statement;
mod term;
mod threshold;
mod version;

pub use command::Command;
pub use declaration::{Declaration, Declarations};
pub use identifier::{Identifier, Identifiers};
pub use kind::{SimpleKind, VariableKind};
pub use let_value::LetValue;
pub use limits::{MOST, MOST_BYTES, MOST_IN_NAME};
pub use operator::Operator;
pub use procedure::{Procedure, Procedures};
pub use script::Script;
pub use statement::{Block, Statement};
pub use term::{Term, Terms};
pub use threshold::{Numbers, Threshold};
pub use version::Version;

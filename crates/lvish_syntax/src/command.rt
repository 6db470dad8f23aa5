ghost use Rattle.std.specs.Prelude.{◌≡◌, IfOk};

use crate::identifier::{Identifier, Identifiers};
use crate::let_value::LetValue;
use crate::term::{Term, Terms};
use crate::threshold::Threshold;
use std::alloc::{AllocError, Global};

/// A statement of one line.
pub enum Command {
    /// `let`: the local takes the value.
    Let(Identifier, LetValue),
    /// `put`: puts the term's value into the variable, a cell, a set or a counter.
    Put(Identifier, Term),
    /// `put`: puts the second term's value into the map or the tally, at the first one's value as
    /// key, or into the pair's side with that number.
    PutAt(Identifier, Term, Term),
    /// `get`: waits until the variable passes the threshold, and the local takes the answer: the
    /// local, then the variable.
    Get(Identifier, Identifier, Threshold),
    /// `get` on a map or a tally at the term's value as key, or on a pair's side with that number.
    GetAt(Identifier, Identifier, Term, Threshold),
    /// `fork`: starts a task that runs the procedure on the values of the terms.
    Fork(Identifier, Terms),
    /// `call`: runs the procedure on the values of the terms in a frame of its own.
    Call(Identifier, Terms),
    /// `handle`: adds a handler that runs the procedure to the pool: the pool, then the procedure.
    Handle(Identifier, Identifier),
    /// `freeze`: freezes the variable after the tasks of the pools, and the local takes the number
    /// of events below its state: the local, then the variable.
    Freeze(Identifier, Identifier, Identifiers),
    /// `freeze` with `each`: the procedure is then called on each of these events.
    FreezeEach(Identifier, Identifier, Identifiers, Identifier),
}

// Written out, so that it is proved once, and not at each exit of a function that owns one.
impl Drop for Command {
    fn drop(self) {
        match self {
            Command::Let(_, _) => {}
            Command::Put(_, _) => {}
            Command::PutAt(_, _, _) => {}
            Command::Get(_, _, _) => {}
            Command::GetAt(_, _, _, _) => {}
            Command::Fork(_, _) => {}
            Command::Call(_, _) => {}
            Command::Handle(_, _) => {}
            Command::Freeze(_, _, _) => {}
            Command::FreezeEach(_, _, _, _) => {}
        }
    }
}

impl Command {
    /// An equal command.
    pub fn copy(&self, alloc: Global) -> Result<Command, AllocError>
        ensures { IfOk result (λ c. c ≡ self.now) }
    {
        Ok(match self {
            Command::Let(local, value) => Command::Let(local.copy(), value.copy()),
            Command::Put(variable, term) => Command::Put(variable.copy(), term.copy()),
            Command::PutAt(variable, place, term) => {
                Command::PutAt(variable.copy(), place.copy(), term.copy())
            }
            Command::Get(local, variable, read) => {
                Command::Get(local.copy(), variable.copy(), read.copy(alloc)?)
            }
            Command::GetAt(local, variable, place, read) => Command::GetAt(
                local.copy(),
                variable.copy(),
                place.copy(),
                read.copy(alloc)?,
            ),
            Command::Fork(procedure, terms) => {
                Command::Fork(procedure.copy(), Term::copy_all(alloc, terms)?)
            }
            Command::Call(procedure, terms) => {
                Command::Call(procedure.copy(), Term::copy_all(alloc, terms)?)
            }
            Command::Handle(pool, procedure) => { Command::Handle(pool.copy(), procedure.copy()) }
            Command::Freeze(local, variable, pools) => {
                Command::Freeze(
                    local.copy(),
                    variable.copy(),
                    Identifier::copy_all(alloc, pools)?,
                )
            }
            Command::FreezeEach(local, variable, pools, procedure) => Command::FreezeEach(
                local.copy(),
                variable.copy(),
                Identifier::copy_all(alloc, pools)?,
                procedure.copy(),
            ),
        })
    }
}

//! The picture of a table: which configuration of the calculus the variables, the handlers and
//! the tasks of a machine stand for, and what each kind of step keeps of it.
//!
//! A machine keeps a log for each variable, a cursor for each handler and a count for each pool.
//! The calculus (`lvish_calculus`) knows none of these: it has contents, marks, tasks, handlers,
//! and which event was handed to which handler. `specs/` defines the one from the other: an event
//! was handed to a handler where it is among the first entries of the log, as many as the cursor
//! says. The functions of [`laws`] have no code: their contracts say, of every program, that a
//! table changed as `specs/Steps.antt` says of a step still stands for the last configuration of
//! a run that hands events in the order of their introduction, and that cursors and counts answer
//! what the calculus asks before a freeze.
//!
//! The functions of [`examples`] have no code either: a table, and its picture, computed.
#![tactic(auto)]

pub mod examples;
pub mod laws;

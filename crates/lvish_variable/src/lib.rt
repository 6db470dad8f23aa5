//! A shared variable: its state, its frozen mark, and the log of its events.
//!
//! A put joins to the state. The events that it brings, and that weren't there before, go onto
//! the log in ascending order, each with the task that put it and the number of this put among
//! that task's. So the log has each event of the state once, in the order in which they came:
//! whoever handles events one by one follows the log, and never looks at the state. After a freeze
//! only puts that change nothing are accepted (Kuper, Turon, Krishnaswami, Newton, POPL 2014).
//!
//! ```text
//! let main = TaskName::main();
//! let mut cell = Variable::<Flat<i64>>::new(alloc);
//! cell.put(alloc, &main, 1, &Flat::Value(5))?;     // the log is [(5, main, 1)]
//! let answer = cell.read(&FlatRead::Any);          // Some(5)
//! let state = cell.freeze(alloc)?;                 // Flat::Value(5)
//! cell.put(alloc, &main, 2, &Flat::Value(5))?;     // nothing changes
//! cell.put(alloc, &main, 3, &Flat::Value(6));      // Err(Conflict): the join is top
//! ```
#![tactic(auto)]

mod entry;
mod put_fault;
mod variable;

pub use entry::Entry;
pub use put_fault::PutFault;
pub use variable::Variable;

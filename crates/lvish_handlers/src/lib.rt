//! The handlers of one variable, and how many tasks run in each pool.
//!
//! A handler is handed each event of its variable once, in the order of the variable's log: a
//! cursor says how many entries it was handed, and what comes next is the entry after these. So a
//! handler that is added late begins at the log's first entry, and no two handlers wait for each
//! other. A handler's tasks run in its pool; a freeze waits until the pools that it names are empty
//! and each of the variable's handlers was handed the whole log
//! (Kuper, Turon, Krishnaswami, Newton, POPL 2014).
//!
//! ```text
//! let mut handlers = Handlers::new(alloc, 1)?;
//! handlers.add(alloc, &variable, 0, name, procedure)?;
//! while let Some(event) = handlers.next(&variable, &name) {
//!     handlers.advance(&variable, &name)?;
//!     handlers.task_started(0);
//!     // .. a task handles the event ..
//! }
//! assert!(rt; handlers.drained(&variable));
//! ```
#![tactic(auto)]

mod fault;
mod handlers;
mod held;
mod limits;

pub use fault::{AddFault, NothingToHand};
pub use handlers::Handlers;
pub use held::Held;
pub use limits::MOST_PROGRAM_STEPS;

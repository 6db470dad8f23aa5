//! Names of tasks and handlers: the path from `main`.
//!
//! A name says where a task comes from: `main/2` is the second task that `main` forked, and
//! `main/h1:0:3` handles the event of key 0 and number 3 for the first handler that `main` added.
//! So the same task has the same name in every schedule.
//!
//! ```
//! let main = TaskName::<i64>::main();
//! let handler = HandlerName::new(&main, 1)?;
//! let task = TaskName::handed(alloc, &handler, &3)?;
//! assert_eq!(rt; task.text(alloc)?.as_str(), "main/h1:0:3");
//! ```
#![tactic(auto)]

mod handler_name;
mod laws;
mod limits;
mod name_fault;
mod name_part;
mod parts;
mod path;
mod summary;
mod task_name;

pub use handler_name::HandlerName;
pub use laws::{handler_names_identical, task_names_identical};
pub use limits::MOST_PARTS;
pub use name_fault::NameFault;
pub use name_part::NamePart;
pub use parts::Parts;
pub use task_name::TaskName;

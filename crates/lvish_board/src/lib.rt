//! The board: a core, the trace of its steps, and the parked tasks, in one value that a lock can
//! hold.
//!
//! Workers run the local statements of a [`Ticket`] by themselves ([`stretch`]); what the task then
//! asks for is one [`act`](Board::act) of the board, which answers the work that it leaves.
//!
//! ```
//! let Ok((mut board, first)) = Board::new(alloc, &program, budget, Opened::new()) else { .. };
//! // A list, a lock or a deque of work: here a list.
//! let Work::Stretch(ticket) = first else { .. };
//! let Ok(asked) = stretch(alloc, &program, ticket) else { .. };
//! match board.act(alloc, 0, asked) {
//!     ActAnswer::Next(more) | ActAnswer::Gone(more) => .. // all of it is to be done, in any order
//!     ActAnswer::Parked => .. // the board parks it, and lists it once it can go on
//!     ActAnswer::Over => .. // `board.over()` says how
//!     ..
//! }
//! ```
#![tactic(auto)]

mod act_answer;
mod act_kind;
mod asked;
mod board;
mod board_brand;
mod by_index;
mod list;
mod newest;
mod parked;
mod room;
mod shelves;
mod stand;
mod step_work;
mod ticket;
mod work;

pub use act_answer::ActAnswer;
pub use act_kind::ActKind;
pub use asked::{Asked, stretch, stretch_with};
pub use board::Board;
pub use board_brand::BoardBrand;
pub use lvish_trace::{Outcome, PackedStep, Step, Trace, TraceEntry, TracedStep};
pub use stand::Stand;
pub use step_work::StepWork;
pub use ticket::Ticket;
pub use work::Work;

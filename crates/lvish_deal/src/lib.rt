//! Deques for the workers of a scheduler, who take work from one another.
//!
//! Each worker has a seat, and each seat has a first-in, first-out deque of its own. The seat's worker pushes at the back
//! and pops at the front. A worker whose deque is empty steals at the front of another's. No lock is held, and no item
//! is lost or taken twice.
//!
//! ```text
//!            push ──► ┌───────────────┐ ──► pop       seat 0
//!                     │ c   b   a     │
//!                     └───────────────┘ ──► steal     by seat 1 or 2
//!            push ──► ┌───────────────┐ ──► pop       seat 1
//!                     │               │
//!                     └───────────────┘ ──► steal     by seat 0 or 2
//!            push ──► ┌───────────────┐ ──► pop       seat 2
//!                     │ d             │
//!                     └───────────────┘ ──► steal     by seat 0 or 1
//! ```
//!
//! `deal` makes the seats, which then go to their threads. A worker looks for its next item like this:
//!
//! ```text
//! fn next<T>(seat: &mut Seat<T>) -> Option<T> {
//!     if let Some(item) = seat.pop() {
//!         return Some(item);
//!     }
//!     for from in 0..seat.seats() {
//!         if from != seat.number() {
//!             if let Steal::Taken(item) = seat.steal(from) {
//!                 return Some(item);
//!             }
//!         }
//!     }
//!     None
//! }
//! ```
//!
//! When the threads have given their seats back, `close` takes all of them, in the order of their numbers, and gives what
//! is left in each deque.
#![tactic(auto)]

mod closing;
mod dealing;
mod log;
mod reach;
mod rule;
mod seat;
mod steal;
mod theft;

pub use closing::close;
pub use dealing::deal;
pub use seat::Seat;
pub use steal::Steal;

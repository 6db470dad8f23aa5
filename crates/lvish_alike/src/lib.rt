//! Scripts of which all ends are alike, whatever the schedule.
//!
//! Two ends of one script can differ only if its runs freeze variables in different orders. So they
//! are alike where there is one variable to freeze, or only `main` freezes. [`ends_alike`] reads that
//! from the script's lines: it runs nothing.
//!
//! ```text
//! if ends_alike(alloc, &script)? {
//!     // One run shows the report of all that end.
//! }
//! ```
//!
//! Where `main` freezes each variable after all that write to it, one run that ends without an error
//! shows even that no run errs, and that none is longer. [`is_layered`] reads that from the code.
#![tactic(auto)]

mod alike;
mod freezes;
mod given;
pub mod laws;
mod layered;
mod link;
mod reached;
mod sought;

pub use alike::ends_alike;
pub use layered::is_layered;

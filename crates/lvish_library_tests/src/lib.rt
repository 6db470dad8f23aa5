//! Calls of the library by code that knows no more than a bound, and what only a test can
//! see: that a call whose growth was refused can be made again.
#![tactic(auto)]

pub mod calls;
pub mod keys;
#[cfg(test)]
mod tests;

//! Tests of `lvish_run`, and of `lvish_again` above it, proved over the built crates: scripts that are run by
//! workers on threads, a program that is no script, and runs that are made again.
#![tactic(auto)]

mod native;
#[cfg(test)]
mod tests;

pub use native::Countdown;

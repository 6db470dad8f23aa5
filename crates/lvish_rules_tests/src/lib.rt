//! Tests of `lvish_rules`, proved over the built crate: what can be reached in small graphs, and by a
//! crew.
#![tactic(auto)]

#[cfg(test)]
mod tests;
mod weighed;

pub use weighed::Weighed;

//! Tests of `lvish_cli`, proved over the built crate: readers, writers and memory that fail, and faults that are
//! given.
#![tactic(auto)]

#[cfg(test)]
mod tests;

//! Tests of `lvish_core`, proved over the built crate: cores of small scripts.
#![tactic(auto)]

#[cfg(test)]
mod tests;

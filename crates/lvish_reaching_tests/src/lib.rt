//! Tests of `lvish_reaching`, proved over the built crate: what small lists of edges reach.
#![tactic(auto)]

#[cfg(test)]
mod tests;

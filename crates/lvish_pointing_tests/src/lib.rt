//! Tests of `lvish_pointing`, proved over the built crate: who points to whom by small lists of facts.
#![tactic(auto)]

#[cfg(test)]
mod tests;

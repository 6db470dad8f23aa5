//! Tests of `lvish_deal` and `lvish_history`, proved over the built crates: worked examples on one
//! thread, seats on threads of their own, and stamps.
#![tactic(auto)]

#[cfg(test)]
mod tests;

//! The calculus of LVish: what a program, a configuration, a step and a run are, and the laws of
//! all runs.
//!
//! A [`Program`] says what each task asks for. `specs/` defines, from that, the configurations,
//! which labels are enabled, what a step does and what a run is, after Kuper, Turon,
//! Krishnaswami and Newton (POPL 2014). The functions of [`laws`] have no code: their
//! contracts are the laws, of every program and every run.
#![tactic(auto)]

pub mod blocked_examples;
pub mod error_examples;
pub mod examples;
pub mod label;
pub mod laws;
pub mod meaning;
pub mod program;
pub mod request;

pub use label::Label;
pub use meaning::Meaning;
pub use program::{Asks, Program};
pub use request::{ErrorKind, Pools, Reply, Request};

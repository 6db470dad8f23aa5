//! The words that each analysis of a file knows. Each argument has a function of its own, so that a
//! command that is refused drops no other.

use clap::builder::ValueParser;
use clap::{Arg, ArgAction, value_parser};
use std::alloc::Global;

/// The file that is analysed.
pub fn file<'a>(alloc: Global, help: &'a str) -> Arg<'a> {
    needed(alloc, "file", "FILE", help)
}

/// A word that has to be there.
pub fn needed<'a>(alloc: Global, name: &'a str, value: &'a str, help: &'a str) -> Arg<'a> {
    Arg::new(alloc, name)
        .value_name(value)
        .help(help)
        .value_parser(ValueParser::NonEmptyString)
        .required(true)
}

/// How many workers work, 1 unless it is there.
pub fn workers<'a>(alloc: Global, most: i64, help: &'a str) -> Arg<'a> {
    Arg::new(alloc, "workers")
        .long("workers")
        .value_name("N")
        .help(help)
        .value_parser(value_parser!(u64).range(1..=most))
        .default_value("1")
}

/// After how many steps the analysis is stopped.
pub fn steps<'a>(alloc: Global, most: i64) -> Arg<'a> {
    Arg::new(alloc, "steps")
        .long("steps")
        .value_name("N")
        .help("Stop after N steps; without it, after as many as a run may have")
        .value_parser(value_parser!(u64).range(0..=most))
}

/// Whether to say what it took.
pub fn stats<'a>(alloc: Global) -> Arg<'a> {
    Arg::new(alloc, "stats")
        .long("stats")
        .help("Say on standard error how many steps, facts and seconds it took")
        .action(ArgAction::SetTrue)
}

//! The words that the program knows, with their help.

use clap::Command;
use lvish_console::{Order, UsageFault, arguments, refusal};
use lvish_rules::{MOST_PROGRAM_STEPS, MOST_WORKERS};
use std::alloc::{AllocError, Global};
use std::convert::AsStr;

/// The order that the words give.
pub fn order_of<S: AsStr>(alloc: Global, words: &[S]) -> Result<Order, UsageFault> {
    let command = program(alloc)?;
    match command.try_get_matches_from(words) {
        Ok(matches) => Ok(Order::of(alloc, &matches, MOST_PROGRAM_STEPS)?),
        Err(error) => Err(refusal(alloc, &error)),
    }
}

/// The program.
fn program<'a>(alloc: Global) -> Result<Command<'a>, AllocError> {
    Command::new(alloc, "lvish_points_to")
        .bin_name("lvish_points_to")?
        .no_binary_name(true)
        .about("Prints who points to whom: Andersen's analysis of a list of facts")
        .after_help(HELP)
        .arg(arguments::file(alloc, "The facts"))?
        .arg(arguments::workers(
            alloc,
            MOST_WORKERS as i64,
            "Let up to N workers work, 1 to 8",
        ))?
        .arg(arguments::steps(alloc, MOST_PROGRAM_STEPS as i64))?
        .arg(arguments::stats(alloc))
}

const HELP: &str = "\
A line of the file states a fact: `address P X` (P = &X), `copy P Q` (P = Q), `load P Q` (P = *Q) or
`store P Q` (*P = Q). Names are any words; `#` at the begin of a word begins a comment. Each name
that points to anything is printed with all that it points to, by the least solution of Andersen's
constraints: a line `P: X Y`, sorted by bytes.

Example:
  lvish_points_to swap.facts

Statuses:
  0  who points to whom is printed, whole; or help was asked for
  2  the words are refused
  3  the file can't be opened or read
  4  a line of the file is no fact, or none is one: standard error says which
  5  the analysis is in error, which no run of it is
  6  N steps were made: some of who points to whom is printed
  7  memory was refused
  8  standard output is full, or a thread couldn't be started";

//! The words that the program knows, with their help.

use clap::{ArgMatches, Command};
use lvish_console::{Order, UsageFault, arguments, refusal};
use lvish_rules::{MOST_PROGRAM_STEPS, MOST_WORKERS};
use std::alloc::{AllocError, Global};
use std::convert::AsStr;

/// What the words ask for.
#[derive(Drop)]
pub struct ReachOrder {
    /// The name of the node that the walk begins at.
    pub root: String,
    pub order: Order,
}

/// The order that the words give.
pub fn order_of<S: AsStr>(alloc: Global, words: &[S]) -> Result<ReachOrder, UsageFault> {
    let command = program(alloc)?;
    match command.try_get_matches_from(words) {
        Ok(matches) => Ok(asked(alloc, &matches)?),
        Err(error) => Err(refusal(alloc, &error)),
    }
}

/// The order of words that match.
fn asked(alloc: Global, words: &ArgMatches<'_>) -> Result<ReachOrder, AllocError> {
    Ok(ReachOrder {
        root: String::from_str(alloc, words.get_str("root").unwrap_or(""))?,
        order: Order::of(alloc, words, MOST_PROGRAM_STEPS)?,
    })
}

/// The program.
fn program<'a>(alloc: Global) -> Result<Command<'a>, AllocError> {
    Command::new(alloc, "lvish_reach")
        .bin_name("lvish_reach")?
        .no_binary_name(true)
        .about("Prints which nodes a list of edges reaches from a root")
        .after_help(HELP)
        .arg(arguments::file(alloc, "The edges"))?
        .arg(arguments::needed(alloc, "root", "ROOT", "The name of the node to begin at"))?
        .arg(arguments::workers(
            alloc,
            MOST_WORKERS as i64,
            "Let up to N workers walk, 1 to 8",
        ))?
        .arg(arguments::steps(alloc, MOST_PROGRAM_STEPS as i64))?
        .arg(arguments::stats(alloc))
}

const HELP: &str = "\
A line `A B C` of the file says that edges lead from node A to B and to C. Names are any words; `#`
at the begin of a word begins a comment. The names of all nodes that edges lead to from ROOT are
printed, ROOT among them, one a line and sorted by their bytes.

Example:
  lvish_reach calls.edges main

Statuses:
  0  all that can be reached is printed; or help was asked for
  2  the words are refused
  3  the file can't be opened or read
  4  a line of the file has one name alone, or none has a name: standard error says which
  5  the analysis is in error, which no run of it is
  6  N steps were made: some of what can be reached is printed
  7  memory was refused
  8  standard output is full, or a thread couldn't be started";

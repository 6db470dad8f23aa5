use clap::ArgMatches;
use std::alloc::{AllocError, Global};

/// What words ask of any analysis of a file.
#[derive(Debug, Drop)]
pub struct Order {
    /// The file that is analysed.
    pub path: String,
    /// How many workers work at most.
    pub workers: usize,
    /// After this many steps the analysis is stopped.
    pub budget: u64,
    /// Whether to say what it took.
    pub stats: bool,
}

impl Order {
    /// The order of words that match; without a number of steps, with as many as there may be.
    pub fn of(alloc: Global, words: &ArgMatches<'_>, most: u64) -> Result<Order, AllocError> {
        Ok(Order {
            path: String::from_str(alloc, words.get_str("file").unwrap_or(""))?,
            workers: words.get_one::<usize>("workers").unwrap_or(1),
            budget: words.get_one::<u64>("steps").unwrap_or(most),
            stats: words.get_flag("stats"),
        })
    }
}

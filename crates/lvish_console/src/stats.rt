use std::alloc::{AllocError, Global};
use std::time::Duration;

/// What an answer took.
#[derive(Clone, Copy, Debug, PartialEq, Eq)]
pub struct Stats {
    pub steps: u64,
    /// How many facts were found.
    pub facts: usize,
}

/// The lines of `--stats`.
pub(crate) fn stats_text(
    alloc: Global,
    stats: Stats,
    taken: Duration,
) -> Result<String, AllocError> {
    let Stats { steps, facts } = stats;
    let seconds = taken.as_secs();
    let thousandths = taken.subsec_millis();
    format!(in alloc; "steps {steps}\nfacts {facts}\nseconds {seconds}.{thousandths:03}\n")
}

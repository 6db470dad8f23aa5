/// The most steps that a run of a script may be given.
pub const MOST_STEPS: u64 = 1_000_000;

/// The most steps that a run of another program may be given: so many as have indices of 32 bits.
pub const MOST_PROGRAM_STEPS: u64 = lvish_core::MOST_PROGRAM_STEPS;

/// The most workers of a run.
pub const MOST_WORKERS: usize = 8;

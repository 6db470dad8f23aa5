/// The most steps of a run.
pub const MOST_PROGRAM_STEPS: u64 = lvish_handlers::MOST_PROGRAM_STEPS;

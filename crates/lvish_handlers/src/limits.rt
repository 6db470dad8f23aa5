/// The most steps of a run of any program. A step starts one task at most, so the index of each task has
/// 32 bits, and no more of them run.
pub const MOST_PROGRAM_STEPS: u64 = 4_294_967_295;

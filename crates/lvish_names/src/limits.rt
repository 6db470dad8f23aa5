/// The most parts of a task's name.
pub const MOST_PARTS: usize = 64;

/// What the number of a task is multiplied by for the number of its forks: odd, and far from powers of two.
pub(crate) const FORK_FACTOR: u32 = 0x9e37_79b9;

/// The number of no value, and so the most values that a history numbers.
pub const NO_NUMBER: u32 = u32::MAX;

/// The highest number that a counter holds.
pub const HIGHEST_LEVEL: u16 = 1000;

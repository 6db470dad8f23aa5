/// The highest total of a tally's amounts.
pub const HIGHEST_TOTAL: u16 = 10_000;

/// The versions of scripts.
#[derive(Clone, Copy, PartialEq, Eq)]
pub enum Version {
    /// Scripts without a line that says another.
    One,
    /// Scripts that begin with the line `lvish 2`. They have tallies and totals, and the words
    /// `lvish`, `tally` and `total` are no names in them.
    Two,
}

/// What is known of all runs of a script.
#[derive(Clone, Copy)]
pub enum Alike {
    /// All come to the same end, after at most so many steps.
    Always(u64),
    /// All that end without an error end alike.
    Ends,
    /// It isn't known whether two of them end differently.
    Unknown,
}

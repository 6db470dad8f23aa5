/// The frames that a task can have below the innermost one.
pub const MOST_BELOW: usize = 63;

/// The local statements between two pauses.
pub const TURNS: usize = 1000;

/// As many numbers as most procedures have locals. So many stand in a frame itself.
pub const IN_PLACE: usize = 6;

/// The numbers that are copied with their frame, which takes no longer than to share them. More are
/// shared with its copies.
pub const MOST_COPIED: usize = 256;

/// The changes that a frame can have beside numbers that it shares with its copies.
pub const MOST_CHANGES: usize = 8;

/// The local statements after which a frame makes numbers its own that it shares with its copies,
/// beside one for each `COPIED_IN_A_STATEMENT` of the numbers.
pub const MOST_BESIDE: usize = 8;

/// As many numbers as are copied in the time by which a local statement takes longer where a frame
/// shares its numbers.
pub const COPIED_IN_A_STATEMENT: usize = 64;

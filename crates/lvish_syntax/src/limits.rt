//! The limits of scripts.

/// The most bytes of a text.
pub const MOST_BYTES: usize = 65_536;

/// How many variables, pools and procedures there may be, and how many blocks may be open one in
/// the other, the procedure the first of them.
pub const MOST: usize = 64;

/// The most bytes of a name.
pub const MOST_IN_NAME: usize = 32;

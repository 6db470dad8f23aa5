//! The checks of a script, one file each. Each goes over the lines once.

mod bad_line;
mod bad_number;
mod compatible;
mod double_name;
mod no_main;
mod not_ascii;
mod open_block;
mod too_many;
mod unknown_name;
mod wrong_count;
mod wrong_kind;

pub use bad_line::first_bad_line;
pub use bad_number::first_bad_number;
pub use compatible::first_compatible;
pub use double_name::first_double_name;
pub use no_main::first_no_main;
pub use not_ascii::first_not_ascii;
pub use open_block::first_open_block;
pub use too_many::first_too_many;
pub use unknown_name::first_unknown_name;
pub use wrong_count::first_wrong_count;
pub use wrong_kind::first_wrong_kind;

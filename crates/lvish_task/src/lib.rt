//! Tasks: the flat code of a script, as a program of the calculus.
#![tactic(auto)]

mod arithmetic;
mod at_once;
mod beside;
mod equal;
mod evaluate;
mod fits;
mod frame;
mod frames;
mod heard;
mod in_place;
pub mod laws;
mod limits;
mod local;
mod meaning;
mod program;
mod remaining;
mod resume;
mod run;
mod script_code;
mod shared_numbers;
mod stack;
mod states;
mod step;
mod stride;
mod turn;
mod values;

pub use local::Local;
pub use meaning::ScriptMeaning;
pub use script_code::ScriptCode;

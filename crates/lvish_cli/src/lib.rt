//! The command line of the program `lvish`: its words, what it reads and writes, and its statuses.
#![tactic(auto)]

mod answering;
mod arguments;
mod checking;
mod commands;
mod explaining;
mod graphing;
mod layout;
mod lines;
mod order;
mod output;
mod performing;
mod program;
mod reading;
mod refusing;
mod running;
mod seeking;
mod status;
mod telling;
mod trying;
mod words;
mod writing;

pub use answering::answer_to;
pub use explaining::why_of_text;
pub use order::{
    CheckOrder, GraphOrder, NumberWords, Order, PickOrder, Picks, RunOrder, Source, TryOrder,
    UsageFault, WhyOrder,
};
pub use output::Output;
pub use performing::perform;
pub use program::{Ending, command, command_told, command_with};
pub use reading::{MOST_READ, ReadFault, read_text};
pub use status::Status;
pub use telling::Hearer;
pub use words::order_of;
pub use writing::{WriteFault, write_text};

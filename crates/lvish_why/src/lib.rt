//! Why an event is in a variable's content: a derivation, from its put down to the facts.
//!
//! ```text
//! let asked = Question { variable: 2, key: 0, number: 4 };
//! let derived = why(alloc, text, &script, &report, asked, Form::Tree { depth: 10 })?;
//!
//! seen 4   put seen l              line 15   main/h1:0:2, its put 1, with node 2, l 4
//! ├ seen 2   put seen l            line 15   main/h1:0:1, its put 1, with node 1, l 2
//! │ ├ seen 1   put seen 1          line 33   main, its put 1
//! │ └ left 1:2   put left node l   line 24   main/1, its put 1, forked in line 34
//! └ left 2:4   put left node l     line 24   main/2, its put 1, forked in line 35
//! ```
#![tactic(auto)]

mod absent;
mod derivation;
mod derived;
mod dot;
mod form;
mod page;
mod premises;
mod question;
mod telling;
mod tree;
mod words;

pub use derived::Derived;
pub use form::Form;
pub use question::Question;
pub use telling::why;

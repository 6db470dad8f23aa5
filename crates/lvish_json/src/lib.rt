//! What `lvish` says, as JSON: one object and a line end, for programs to read.
//!
//! docs/JSON.md names the members. The bytes are exactly the text of the value that `specs/` defines,
//! and the text is read as that value, so no number, name or state is told in part.
//!
//! ```text
//! write(report_json(alloc, &script, &report, None)?);
//! // {"outcome":"ended","error":null,"steps":5,"blocked":0,"by_worker":[5],"freezes":[],
//! //  "states":[{"name":"a","kind":"cell","frozen":false,"content":7}]}
//! ```
#![tactic(auto)]

mod alike;
mod answers;
mod content;
pub mod laws;
mod names;
mod report;
mod states;
mod text;
mod tried;

pub use alike::Alike;
pub use answers::{check_json, refusal_json};
pub use report::report_json;
pub use tried::tried_json;

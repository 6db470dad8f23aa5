//! What is seen of a core.

use lvish_calculus::Request;
use lvish_compound::{Any, AnyRead};
use lvish_lattice::Reads;
use lvish_task::Local;
use std::alloc::AllocError;
use std::fmt::Write;

/// What a task of a script asks for.
pub type ScriptRequest = Request<Any, AnyRead, Local>;

/// What is seen of a core, and what main asks for: `None` where it has ended.
pub struct Seen {
    text: String,
    asked: Option<ScriptRequest>,
}

// Written out, so that it is proved once, and not at each exit of a function that owns one.
impl Drop for Seen {
    fn drop(self) {
        let Seen { text: _, asked: _ } = self;
    }
}

impl Seen {
    /// What is seen beside what main asks for.
    pub fn new(mut text: String, asked: Option<ScriptRequest>) -> Result<Seen, AllocError> {
        if let Some(request) = &asked {
            write_request(&mut text, request)?;
        }
        Ok(Seen { text, asked })
    }

    /// Whether the same was seen: the same text, and a task in the same local state to be forked.
    pub fn is(&self, other: &Seen) -> bool {
        self.text.as_str() == other.text.as_str() && is_same_child(self.child(), other.child())
    }

    /// The task that main forks next, if it does.
    fn child(&self) -> Option<&Local> {
        match &self.asked {
            Some(Request::Fork(child)) => Some(child),
            _ => None,
        }
    }
}

/// Whether both are in one local state, or none is there.
fn is_same_child(one: Option<&Local>, other: Option<&Local>) -> bool {
    match one {
        Some(one) => match other {
            Some(other) => *one == *other,
            None => false,
        },
        None => other.is_none(),
    }
}

/// Writes what is asked for: of a fork, that it is one, and of a get, where it waits.
fn write_request(text: &mut String, request: &ScriptRequest) -> Result<(), AllocError> {
    match request {
        Request::Put(variable, state) => write!(text, "put {variable} {state:?}"),
        Request::Get(variable, read) => write!(text, "get {variable} {:?}", Any::watch(read)),
        Request::Fork(_) => text.push_str("fork"),
        Request::Add(pool, procedure) => write!(text, "add {pool} {procedure}"),
        Request::Freeze(variable, pools) => write!(text, "freeze {variable} {pools:?}"),
        Request::Pause => text.push_str("pause"),
        Request::End => text.push_str("end"),
        Request::Fault(kind) => write!(text, "fault {kind:?}"),
    }
}

ghost use Rattle.std.specs.Prelude.{◌≡◌};

use crate::status::Status;
use lvish_compound::{Any, Event};
use lvish_report::Report;
use lvish_syntax::Script;

/// What goes to standard output, and the status that goes with it.
#[derive(Drop)]
pub struct Output {
    pub status: Status,
    pub text: Vec<u8>,
    /// The script that it is about, if it is about one, and the report that it tells of, if it tells of
    /// one. They stand here for what standard error says, and so that whoever has the answer decides
    /// when their memory is given back.
    pub script: Option<Script>,
    pub report: Option<Report<Any, Event>>,
}

impl Output {
    /// The text, with this status, of no report.
    pub(crate) fn said(status: Status, text: Vec<u8>) -> Output
        ensures status { result.status ≡ status }
        ensures text { result.text ≡ text }
    {
        Output {
            status,
            text,
            script: None,
            report: None,
        }
    }

    /// The same, and the script that it is about.
    pub(crate) fn about(self, script: Script) -> Output
        ensures status { result.status ≡ self.status }
        ensures text { result.text ≡ self.text }
    {
        let Output {
            status,
            text,
            script: _,
            report,
        } = self;
        Output {
            status,
            text,
            script: Some(script),
            report,
        }
    }
}

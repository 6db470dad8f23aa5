use lvish_run::RunFault;
use std::alloc::{AllocError, Global};

/// How a report differs from its trace.
#[derive(Clone, Copy)]
pub enum Otherwise {
    /// A growth was refused.
    Memory,
    /// There is no report.
    NoReport(RunFault),
    /// After this many steps of the trace the next one isn't enabled.
    Label(u64),
    /// What of the report isn't as it was replayed.
    Part(&'static str),
}

impl Otherwise {
    /// How they differ, in words.
    pub fn text(self, alloc: Global) -> Result<String, AllocError> {
        match self {
            Otherwise::Memory => Err(AllocError),
            Otherwise::NoReport(fault) => format!(in alloc; "no report: {fault}"),
            Otherwise::Label(steps) => {
                format!(in alloc; "after {steps} steps the next one of the trace isn't enabled")
            }
            Otherwise::Part(part) => String::from_str(alloc, part),
        }
    }
}

impl From<AllocError> for Otherwise {
    fn from(_refused: AllocError) -> Otherwise {
        Otherwise::Memory
    }
}

impl From<RunFault> for Otherwise {
    fn from(fault: RunFault) -> Otherwise {
        match fault {
            RunFault::Memory => Otherwise::Memory,
            _ => Otherwise::NoReport(fault),
        }
    }
}

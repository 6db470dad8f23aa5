ghost use Rattle.std.specs.Prelude.{◌≡◌};
ghost use Rattle.std.specs.Option.{option_map};
ghost use Rattle.lvish_cli.specs.Statuses.{status_number, status_message};

use lvish_run::RunFault;

/// How the program ends.
#[derive(Debug, PartialEq)]
pub enum Status {
    /// What was asked for is done; a run ended with no blocked task.
    Done,
    /// The run ended with blocked tasks.
    Blocked,
    /// Runs that were tried came to different ends.
    Differ,
    /// The event isn't there.
    Absent,
    /// The words are refused, with the text that says why.
    Usage(String),
    /// The script can't be opened or read.
    Unreadable,
    /// The text is no script.
    Refused,
    /// The run is in error.
    Error,
    /// The run was stopped by its budget.
    Budget,
    /// Memory was refused.
    Memory,
    /// A worker's thread couldn't be started.
    NoThread,
    /// The run was stopped from outside.
    Stopped,
    /// What the workers counted isn't what the run made.
    Mixed,
    /// Standard output refused the text.
    Unwritten,
}

// Written out, so that it is proved once, and not at each exit of a function that owns one.
impl Drop for Status {
    fn drop(self) {
        match self {
            Status::Usage(_) => {}
            Status::Done
            | Status::Blocked
            | Status::Differ
            | Status::Absent
            | Status::Unreadable
            | Status::Refused
            | Status::Error
            | Status::Budget
            | Status::Memory
            | Status::NoThread
            | Status::Stopped
            | Status::Mixed
            | Status::Unwritten => {}
        }
    }
}

impl Status {
    /// The exit status of the process.
    pub fn number(&self) -> u8
        ensures { result ≡ status_number self.now }
    {
        match self {
            Status::Done => 0,
            Status::Blocked | Status::Differ | Status::Absent => 1,
            Status::Usage(_) => 2,
            Status::Unreadable => 3,
            Status::Refused => 4,
            Status::Error => 5,
            Status::Budget => 6,
            Status::Memory => 7,
            Status::NoThread | Status::Stopped | Status::Mixed | Status::Unwritten => 8,
        }
    }

    /// What goes to standard error, line ends included; nothing where standard output says it all.
    pub fn message(&self) -> Option<&str>
        ensures { option_map (λ text. text.now) result ≡ status_message self.now }
    {
        match self {
            Status::Usage(text) => Some(text.as_str()),
            Status::Unreadable => Some("unreadable\n"),
            Status::Memory => Some("memory\n"),
            Status::NoThread => Some("nothread\n"),
            Status::Stopped => Some("stopped\n"),
            Status::Mixed => Some("mixed\n"),
            Status::Done
            | Status::Blocked
            | Status::Differ
            | Status::Absent
            | Status::Refused
            | Status::Error
            | Status::Budget
            | Status::Unwritten => None,
        }
    }
}

impl From<RunFault> for Status {
    ghost use Rattle.std.specs.Prelude.{◌≡◌};
    ghost use Rattle.lvish_cli.specs.Statuses.{fault_status};

    ghost from_gives = { λ fault status. status ≡ fault_status fault };

    fn from(fault: RunFault) -> Status {
        match fault {
            RunFault::NoThread => Status::NoThread,
            RunFault::Memory => Status::Memory,
            RunFault::Stopped => Status::Stopped,
            RunFault::Mixed => Status::Mixed,
        }
    }
}

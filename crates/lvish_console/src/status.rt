use std::alloc::AllocError;

/// How a program ends.
#[derive(Debug, Drop)]
pub enum Status {
    /// All that follows is printed, or help.
    Done,
    /// The words are refused, with the text that says why.
    Usage(String),
    /// The file can't be opened or read.
    Unreadable,
    /// The file is refused, with the text that says why.
    Refused(String),
    /// The analysis is in error.
    Error,
    /// The budget was used up: some of what follows is printed.
    Budget,
    /// Memory was refused.
    Memory,
    /// A thread couldn't be started.
    NoThread,
    /// Standard output refused the text.
    Unwritten,
}

impl Status {
    /// That the file is refused, by the text that says why.
    pub fn refused(text: Result<String, AllocError>) -> Status {
        match text {
            Ok(text) => Status::Refused(text),
            Err(_) => Status::Memory,
        }
    }

    /// The exit status of the process.
    pub fn number(&self) -> u8 {
        match self {
            Status::Done => 0,
            Status::Usage(_) => 2,
            Status::Unreadable => 3,
            Status::Refused(_) => 4,
            Status::Error => 5,
            Status::Budget => 6,
            Status::Memory => 7,
            Status::NoThread | Status::Unwritten => 8,
        }
    }

    /// What goes to standard error, line ends included; nothing where standard output says it all.
    pub fn message(&self) -> Option<&str> {
        match self {
            Status::Usage(text) | Status::Refused(text) => Some(text.as_str()),
            Status::Unreadable => Some("unreadable\n"),
            Status::Error => Some("error\n"),
            Status::Budget => Some("the steps are used up: there may be more\n"),
            Status::Memory => Some("memory\n"),
            Status::NoThread => Some("nothread\n"),
            Status::Done | Status::Unwritten => None,
        }
    }
}

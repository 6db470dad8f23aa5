ghost use Rattle.std.specs.Prelude.{◌≡◌};
ghost use Rattle.lvish_checks.specs.Fault.{fault_number, fault_name};

/// Why a text is no script, in the order of the checks.
#[derive(Clone, Copy, Debug, PartialEq, Eq)]
pub enum Fault {
    /// The text has more than 65,536 bytes.
    TooLong = 1,
    /// A byte is none of tab, line feed, carriage return and 32 to 126.
    NotAscii,
    /// A line has none of the forms of the text's version, or a name that the version reserves; or it
    /// declares a variable or a pool below a `proc` line, or is `lvish 2` below another line with words.
    BadLine,
    /// A number word is no number within 64 bits.
    BadNumber,
    /// A variable, a pool or a procedure is declared again, or a parameter is named twice in one line.
    DoubleName,
    /// A variable, a pool or a procedure isn't declared, a pool's variable isn't declared above it, or a
    /// term is no local of its procedure.
    UnknownName,
    /// A statement doesn't fit the kind of its variable, or names a pool of another variable.
    WrongKind,
    /// A procedure gets another number of terms than it has parameters; a handler's gets two.
    WrongCount,
    /// A line stands inside or outside a procedure where it may not, or a procedure is open at the end.
    OpenBlock,
    /// Two different members of a read aren't kept apart by its variable.
    Compatible,
    /// There is no procedure `main`, or it has parameters.
    NoMain,
    /// There are more than 64 variables, pools or procedures, or more than 64 blocks are open within one
    /// another, the procedure's among them.
    TooMany,
    /// There was no memory to read the text.
    Memory,
}

impl Fault {
    /// The number of the check, from 1 in the order of the checks.
    pub fn number(&self) -> u8
        ensures { result ≡ fault_number self.now }
    {
        *self as u8
    }

    /// The name of the fault.
    pub fn name(&self) -> &'static str
        ensures { result.now ≡ fault_name self.now }
    {
        match self {
            Fault::TooLong => "TooLong",
            Fault::NotAscii => "NotAscii",
            Fault::BadLine => "BadLine",
            Fault::BadNumber => "BadNumber",
            Fault::DoubleName => "DoubleName",
            Fault::UnknownName => "UnknownName",
            Fault::WrongKind => "WrongKind",
            Fault::WrongCount => "WrongCount",
            Fault::OpenBlock => "OpenBlock",
            Fault::Compatible => "Compatible",
            Fault::NoMain => "NoMain",
            Fault::TooMany => "TooMany",
            Fault::Memory => "Memory",
        }
    }
}

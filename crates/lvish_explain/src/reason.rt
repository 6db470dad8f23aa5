ghost use Rattle.std.specs.Prelude.{◌≡◌};
ghost use Rattle.lvish_explain.specs.Reasons.{sentence_of, space_meant};

use crate::known::Space;

/// What is wrong, more closely than the fault says.
#[derive(Clone, Copy)]
pub enum Reason {
    TooLong,
    NotAscii,
    NoForm,
    BelowProcedure,
    LateVersion,
    OfVersionTwo,
    ReservedInTwo,
    BadNumber,
    DeclaredAgain,
    ParameterAgain,
    UnknownVariable,
    LateVariable,
    UnknownPool,
    UnknownProcedure,
    UnknownLocal,
    WrongPut,
    WrongGet,
    OtherPool,
    WrongCount,
    OutsideProcedure,
    WithinProcedure,
    NoIf,
    LeftOpen,
    Compatible,
    NoMain,
    MainHasParameters,
    TooManyVariables,
    TooManyPools,
    TooManyProcedures,
    TooDeep,
    Memory,
}

impl Reason {
    /// The sentence that says it.
    pub fn sentence(&self) -> &'static str
        ensures { result.now ≡ sentence_of self.now }
    {
        match self {
            Reason::TooLong => "a script has at most 65536 bytes",
            Reason::NotAscii =>
                "a script has no bytes but tabs, line ends and those from space to ~",
            Reason::NoForm => "this line has none of the forms of a line",
            Reason::BelowProcedure => "variables and pools are declared above the first procedure",
            Reason::LateVersion => "`lvish 2` stands above all other lines with words",
            Reason::OfVersionTwo => "this word is one of version 2, and the script is of version 1",
            Reason::ReservedInTwo => "this word is reserved in version 2",
            Reason::BadNumber => "this is no number within 64 bits",
            Reason::DeclaredAgain => "this name is declared a second time",
            Reason::ParameterAgain => "this parameter is named twice",
            Reason::UnknownVariable => "no variable of this name is declared",
            Reason::LateVariable => "no variable of this name is declared above its pool",
            Reason::UnknownPool => "no pool of this name is declared",
            Reason::UnknownProcedure => "no procedure of this name is declared",
            Reason::UnknownLocal => "the procedure has no local of this name",
            Reason::WrongPut => "this put doesn't fit the kind of its variable",
            Reason::WrongGet => "this get doesn't fit the kind of its variable",
            Reason::OtherPool => "this pool isn't on the variable that is frozen",
            Reason::WrongCount => "the procedure has another number of parameters",
            Reason::OutsideProcedure => "this line stands outside a procedure",
            Reason::WithinProcedure => "this procedure begins within another one",
            Reason::NoIf => "the innermost open block isn't an `if` without an `else`",
            Reason::LeftOpen => "a block or procedure is open at the end",
            Reason::Compatible => "one content can have two different members of this `in`",
            Reason::NoMain => "there is no procedure `main`",
            Reason::MainHasParameters => "the procedure `main` has parameters",
            Reason::TooManyVariables => "a script has at most 64 variables",
            Reason::TooManyPools => "a script has at most 64 pools",
            Reason::TooManyProcedures => "a script has at most 64 procedures",
            Reason::TooDeep => "at most 64 blocks stand in one another, the procedure first",
            Reason::Memory => "there was no memory to read the script",
        }
    }

    /// What a name was meant for that isn't declared.
    pub fn space_meant(&self) -> Option<Space>
        ensures { result ≡ space_meant self.now }
    {
        match self {
            Reason::UnknownVariable => Some(Space::Variable),
            Reason::UnknownPool => Some(Space::Pool),
            Reason::UnknownProcedure | Reason::NoMain => Some(Space::Procedure),
            Reason::UnknownLocal => Some(Space::Local),
            _ => None,
        }
    }
}

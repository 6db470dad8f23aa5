ghost use Rattle.std.specs.Prelude.{◌≡◌};
ghost use Rattle.lvish_graph.specs.Text.{verb_text};

/// What a statement does to the one that it names.
#[derive(Clone, Copy, PartialEq, Eq)]
pub enum Verb {
    /// `put`, of a variable.
    Puts,
    /// `get`, of a variable.
    Reads,
    /// `freeze`, of a variable.
    Freezes,
    /// `freeze .. after`, of a pool.
    Awaits,
    /// `fork`, of a procedure.
    Forks,
    /// `call`, or `freeze .. each`, of a procedure.
    Calls,
}

/// All verbs, in the order in which they are told.
pub const VERBS: [Verb; 6] = [
    Verb::Puts,
    Verb::Reads,
    Verb::Freezes,
    Verb::Awaits,
    Verb::Forks,
    Verb::Calls,
];

impl Verb {
    /// As it stands in texts.
    pub fn text(self) -> &'static str
        ensures { result.now ≡ verb_text self }
    {
        match self {
            Verb::Puts => "puts",
            Verb::Reads => "reads",
            Verb::Freezes => "freezes",
            Verb::Awaits => "waits for",
            Verb::Forks => "forks",
            Verb::Calls => "calls",
        }
    }
}

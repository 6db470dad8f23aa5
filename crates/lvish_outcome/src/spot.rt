//! The variable of which something is told.

ghost use Rattle.std.specs.Prelude.{◌++◌};
ghost use Rattle.std.specs.Fmt.{signed_decimal};
ghost use Rattle.lvish_explain.specs.Draft.{Adds};
ghost use Rattle.lvish_outcome.specs.Spot.{kind_word, at_text, spot_text};

use lvish_explain::Draft;
use lvish_syntax::{SimpleKind, VariableKind};

/// A variable, or what it has at a key or on a side.
#[derive(Clone, Copy)]
pub struct Spot<'a> {
    pub kind: VariableKind,
    pub variable: &'a str,
    /// The key of a map or a tally, or the number of a pair's side.
    pub at: Option<i64>,
}

/// What a variable of a kind is called.
#[tactic(auto, using(lvish_explain::proofs::Adding::adds_then, lvish_explain::proofs::Adding::adds_none))]
fn push_kind(text: &mut Draft, kind: VariableKind)
    ensures { Adds text.old text.new (kind_word kind) }
{
    match kind {
        VariableKind::Simple(SimpleKind::Cell) => text.add(b"cell"),
        VariableKind::Simple(SimpleKind::Set) => text.add(b"set"),
        VariableKind::Simple(SimpleKind::Max) => text.add(b"counter"),
        VariableKind::Map => text.add(b"map"),
        VariableKind::Pair(_, _) => text.add(b"pair"),
        VariableKind::Tally => text.add(b"tally"),
    }
}

/// A number behind a piece of text.
#[tactic(auto, using(lvish_explain::proofs::Adding::adds_then, lvish_explain::proofs::Adding::adds_none))]
fn push_behind(text: &mut Draft, before: &[u8], number: i64)
    ensures { Adds text.old text.new (before.now ++ signed_decimal number) }
{
    text.add(before);
    text.add_integer(number);
}

/// The key, or the side.
#[tactic(auto, using(lvish_explain::proofs::Adding::adds_then, lvish_explain::proofs::Adding::adds_none))]
fn push_place_at(text: &mut Draft, kind: VariableKind, at: Option<i64>)
    ensures { Adds text.old text.new (at_text kind at) }
{
    match at {
        None => {}
        Some(number) => match kind {
            VariableKind::Pair(_, _) => push_behind(text, b" on side ", number),
            _ => push_behind(text, b" at key ", number),
        },
    }
}

impl Spot<'_> {
    /// As ``the map `m` at key 4``.
    #[tactic(auto, using(lvish_explain::proofs::Adding::adds_then, lvish_explain::proofs::Adding::adds_none))]
    pub fn push(&self, text: &mut Draft)
        ensures { Adds text.old text.new (spot_text self.now) }
    {
        text.add(b"the ");
        push_kind(text, self.kind);
        text.add(b" `");
        text.add(self.variable.as_bytes());
        text.add(b"`");
        push_place_at(text, self.kind, self.at);
    }
}

ghost use Rattle.std.specs.Prelude.{◌≡◌, option_and_then, slice_get};
ghost use Rattle.lvish_why.specs.Why.{part_kind, kind_at, event_of};

use lvish_compound::{Event, Kind};
use lvish_syntax::{Declaration, Script, SimpleKind, VariableKind};

/// The greatest number of a counter's event.
const HIGHEST: i64 = 1000;

/// An event that is asked for: its variable, by its number, and its key and number. The key is that of a
/// map or a tally or the side of a pair, and else 0.
#[derive(Clone, Copy)]
pub struct Question {
    pub variable: usize,
    pub key: i64,
    pub number: i64,
}

/// The name and the kind of the variable of this number.
pub fn declaration_of(script: &Script, variable: usize) -> Option<(&str, VariableKind)> {
    let mut left = variable;
    for declaration in script.declarations() {
        if let Declaration::Variable(name, kind) = declaration {
            if left == 0 {
                return Some((name.as_str(), *kind));
            }
            left -= 1;
        }
    }
    None
}

/// The kind of a part's events.
fn part_kind(kind: SimpleKind) -> Kind
    ensures { result ≡ part_kind kind }
{
    match kind {
        SimpleKind::Cell => Kind::Cell,
        SimpleKind::Set => Kind::Set,
        SimpleKind::Max => Kind::Max,
    }
}

/// The kind of the events that a variable has at a key; `None` at what is no side of a pair.
fn kind_at(kind: VariableKind, key: i64) -> Option<Kind>
    ensures { result ≡ kind_at key kind }
{
    match kind {
        VariableKind::Simple(part) => Some(part_kind(part)),
        VariableKind::Map => Some(Kind::Map),
        VariableKind::Tally => Some(Kind::Tally),
        VariableKind::Pair(first, second) => match key {
            1 => Some(part_kind(first)),
            2 => Some(part_kind(second)),
            _ => None,
        },
    }
}

/// The kind of the events at a key of the variable with this number, among variables of these kinds.
fn kind_of(kinds: &[VariableKind], variable: usize, key: i64) -> Option<Kind>
    ensures { result ≡ option_and_then (kind_at key) (slice_get kinds.now variable) }
{
    match kinds.get(variable) {
        Some(kind) => kind_at(*kind, key),
        None => None,
    }
}

/// Whether an event of its kind can have its number.
pub fn can_be(event: Event) -> bool {
    match event.kind {
        Kind::Max | Kind::Tally => 1 <= event.number && event.number <= HIGHEST,
        Kind::Cell | Kind::Set | Kind::Map => true,
    }
}

impl Question {
    /// The event, of one of the variables of these kinds; `None` where there is no such variable, or the key
    /// is no side of a pair.
    pub fn event(self, kinds: &[VariableKind]) -> Option<Event>
        ensures { result ≡ event_of kinds.now self }
    {
        let kind = kind_of(kinds, self.variable, self.key)?;
        Some(Event {
            key: self.key,
            kind,
            number: self.number,
        })
    }
}

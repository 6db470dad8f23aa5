//! The texts of states, by the kinds of their variables.
//!
//! Each is written at the end of a text, since a state may be long.

ghost use Rattle.std.specs.Prelude.{◌≡◌, ◌++◌, OnOk, string_bytes};
ghost use Rattle.std.specs.Fmt.{signed_decimal};
ghost use Rattle.lvish_lattice.specs.GrowSet.{items_of};
ghost use Rattle.lvish_lattice.specs.MaxCounter.{number_of};
ghost use Rattle.lvish_compound.specs.Above.{state_of};
ghost use Rattle.lvish_compound.specs.MapOf.{entries_of};
ghost use Rattle.lvish_compound.specs.Tally.{entries_of as amounts_of};
ghost use Rattle.lvish_report.specs.StateText.{gap, set_text, entry_text, map_text, amount_text, tally_text, simple_text, pair_text, state_text};

use crate::number_text::push_number;
use lvish_compound::{Above, Any, MapOf, Part, Tally};
use lvish_lattice::{Flat, GrowSet, MaxCounter};
use lvish_syntax::{SimpleKind, VariableKind};
use std::alloc::AllocError;

/// Adds the space that stands before all pieces in braces but the first.
fn push_gap(text: &mut String, is_first: bool) -> Result<(), AllocError>
    ensures { OnOk result (string_bytes text.new ≡ string_bytes text.old ++ gap is_first) }
{
    if is_first {
        return Ok(());
    }
    text.push_str(" ")
}

/// Adds the elements of a set in braces.
fn push_set(text: &mut String, set: &GrowSet<i64>) -> Result<(), AllocError>
    ensures { OnOk result (string_bytes text.new ≡ string_bytes text.old ++ set_text (items_of set.now)) }
{
    text.push_str("{")?;
    let mut is_first = true;
    for element in set.items() {
        push_gap(text, is_first)?;
        push_number(text, *element)?;
        is_first = false;
    }
    text.push_str("}")
}

/// Adds a key and what it holds.
fn push_entry(text: &mut String, key: i64, value: &Flat<i64>) -> Result<(), AllocError>
    ensures { OnOk result (string_bytes text.new ≡ string_bytes text.old ++ entry_text (key, value.now)) }
{
    push_number(text, key)?;
    match value {
        Flat::Bottom => text.push_str(":empty"),
        Flat::Value(number) => {
            text.push_str(":")?;
            push_number(text, *number)
        }
    }
}

/// Adds the entries of a map in braces.
fn push_map(text: &mut String, map: &MapOf<i64, Flat<i64>>) -> Result<(), AllocError>
    ensures { OnOk result (string_bytes text.new ≡ string_bytes text.old ++ map_text (entries_of map.now)) }
{
    text.push_str("{")?;
    let mut is_first = true;
    for (key, value) in map.entries() {
        push_gap(text, is_first)?;
        push_entry(text, *key, value)?;
        is_first = false;
    }
    text.push_str("}")
}

/// Adds a key and its amount.
fn push_amount(text: &mut String, key: i64, amount: MaxCounter) -> Result<(), AllocError>
    ensures { OnOk result (string_bytes text.new ≡ string_bytes text.old ++ amount_text (key, amount)) }
{
    push_number(text, key)?;
    text.push_str(":")?;
    push_number(text, amount.get())
}

/// Adds the amounts of a tally in braces.
fn push_tally(text: &mut String, tally: &Tally) -> Result<(), AllocError>
    ensures { OnOk result (string_bytes text.new ≡ string_bytes text.old ++ tally_text (amounts_of tally.now)) }
{
    text.push_str("{")?;
    let mut is_first = true;
    for (key, amount) in tally.entries() {
        push_gap(text, is_first)?;
        push_amount(text, *key, *amount)?;
        is_first = false;
    }
    text.push_str("}")
}

// What these four hold is shown in a function of its own: the laws of a nested type are then proved once
// and not at each case of a match.

/// Adds the elements of a set that isn't empty.
fn push_set_state(text: &mut String, set: &Above<GrowSet<i64>>) -> Result<(), AllocError>
    ensures { OnOk result (string_bytes text.new ≡ string_bytes text.old ++ set_text (items_of (state_of set.now))) }
{
    push_set(text, set.state())
}

/// Adds the number of a counter above 0.
fn push_counter_state(text: &mut String, counter: &Above<MaxCounter>) -> Result<(), AllocError>
    ensures { OnOk result (string_bytes text.new ≡ string_bytes text.old ++ signed_decimal (number_of (state_of counter.now))) }
{
    push_number(text, counter.state().get())
}

/// Adds the entries of a map that has some.
fn push_map_state(text: &mut String, map: &Above<MapOf<i64, Flat<i64>>>) -> Result<(), AllocError>
    ensures { OnOk result (string_bytes text.new ≡ string_bytes text.old ++ map_text (entries_of (state_of map.now))) }
{
    push_map(text, map.state())
}

/// Adds the amounts of a tally that has some.
fn push_tally_state(text: &mut String, tally: &Above<Tally>) -> Result<(), AllocError>
    ensures { OnOk result (string_bytes text.new ≡ string_bytes text.old ++ tally_text (amounts_of (state_of tally.now))) }
{
    push_tally(text, tally.state())
}

/// Adds the text of a cell, a set or a counter; of another state, that of bottom.
fn push_simple(text: &mut String, kind: SimpleKind, part: &Part) -> Result<(), AllocError>
    ensures { OnOk result (string_bytes text.new ≡ string_bytes text.old ++ simple_text kind part.now) }
{
    match (kind, part) {
        (SimpleKind::Cell, Part::Cell(number)) => push_number(text, *number),
        (SimpleKind::Cell, _) => text.push_str("empty"),
        (SimpleKind::Set, Part::Set(set)) => push_set_state(text, set),
        (SimpleKind::Set, _) => text.push_str("{}"),
        (SimpleKind::Max, Part::Max(counter)) => push_counter_state(text, counter),
        (SimpleKind::Max, _) => text.push_str("0"),
    }
}

/// Adds the text of two sides.
fn push_pair(
    text: &mut String,
    kinds: (SimpleKind, SimpleKind),
    one: &Part,
    two: &Part,
) -> Result<(), AllocError>
    ensures { OnOk result (string_bytes text.new ≡ string_bytes text.old ++ pair_text kinds.0 kinds.1 one.now two.now) }
{
    text.push_str("(")?;
    push_simple(text, kinds.0, one)?;
    text.push_str(", ")?;
    push_simple(text, kinds.1, two)?;
    text.push_str(")")
}

/// Adds the text of a state by the kind of its variable; of a state of another kind, that of bottom.
pub fn push_state(text: &mut String, kind: VariableKind, state: &Any) -> Result<(), AllocError>
    ensures { OnOk result (string_bytes text.new ≡ string_bytes text.old ++ state_text kind state.now) }
{
    match (kind, state) {
        (VariableKind::Simple(kind), Any::Part(part)) => push_simple(text, kind, part),
        (VariableKind::Simple(kind), _) => push_simple(text, kind, &Part::Empty),
        (VariableKind::Map, Any::Map(map)) => push_map_state(text, map),
        (VariableKind::Map, _) => text.push_str("{}"),
        (VariableKind::Pair(a, b), Any::Sides(sides)) => {
            push_pair(text, (a, b), &sides.pair().one, &sides.pair().two)
        }
        (VariableKind::Pair(a, b), _) => push_pair(text, (a, b), &Part::Empty, &Part::Empty),
        (VariableKind::Tally, Any::Tally(tally)) => push_tally_state(text, tally),
        (VariableKind::Tally, _) => text.push_str("{}"),
    }
}

//! What is told of states, by the kinds of their variables.

ghost use Rattle.std.specs.Prelude.{◌≡◌, [], IfOk, string_bytes};
ghost use Rattle.json.specs.Json.{null};
ghost use Rattle.json.specs.Tree.{json_tokens};
ghost use Rattle.lvish_lattice.specs.GrowSet.{items_of as elements_of};
ghost use Rattle.lvish_lattice.specs.MaxCounter.{number_of};
ghost use Rattle.lvish_compound.specs.Above.{state_of};
ghost use Rattle.lvish_compound.specs.MapOf.{entries_of};
ghost use Rattle.lvish_compound.specs.Tally.{entries_of as amounts_of};
ghost use Rattle.lvish_json.specs.Adds.{Adds};
ghost use Rattle.lvish_json.specs.Shape.{each, whole};
ghost use Rattle.lvish_json.specs.Content.{simple_kind_text, kind_text, keyed, entry_value, amount_value, simple_content, pair_content, content};

use crate::text::JsonText;
use lvish_compound::{Above, Any, MapOf, Part, Tally};
use lvish_lattice::{Flat, GrowSet, MaxCounter};
use lvish_syntax::{SimpleKind, VariableKind};
use std::alloc::{AllocError, Global};

/// The word of a kind that a side can have.
fn simple_kind_text(kind: SimpleKind) -> &'static str
    ensures { result.now ≡ simple_kind_text kind }
{
    match kind {
        SimpleKind::Cell => "cell",
        SimpleKind::Set => "set",
        SimpleKind::Max => "max",
    }
}

/// A kind, in the words of a declaration without its name.
pub fn kind_text(alloc: Global, kind: VariableKind) -> Result<String, AllocError>
    ensures { IfOk result (λ text. string_bytes text ≡ kind_text kind) }
{
    match kind {
        VariableKind::Simple(kind) => String::from_str(alloc, simple_kind_text(kind)),
        VariableKind::Map => String::from_str(alloc, "map"),
        VariableKind::Pair(one, two) => {
            let one = simple_kind_text(one);
            let two = simple_kind_text(two);
            format!(in alloc; "pair {one} {two}")
        }
        VariableKind::Tally => String::from_str(alloc, "tally"),
    }
}

/// Adds the elements of a set.
#[tactic(auto, using(crate::proofs::Adding::leads_begin, crate::proofs::Adding::leads_more, crate::proofs::Adding::leads_end))]
fn put_set(text: &mut JsonText, set: &GrowSet<i64>)
    ensures { Adds text.old text.new (json_tokens (each whole (elements_of set.now))) }
{
    text.begin_array();
    for element in set.items() {
        text.whole(*element);
    }
    text.end_array()
}

/// Adds a key and a number that stands there.
#[tactic(auto, using(crate::proofs::Adding::adds_then))]
fn put_keyed(text: &mut JsonText, key: i64, number: i64)
    ensures { Adds text.old text.new (json_tokens (keyed key (whole number))) }
{
    text.begin_object();
    text.whole_member("key", key);
    text.whole_member("value", number);
    text.end_object()
}

/// Adds a key at which nothing stands.
#[tactic(auto, using(crate::proofs::Adding::adds_then))]
fn put_unkeyed(text: &mut JsonText, key: i64)
    ensures { Adds text.old text.new (json_tokens (keyed key null)) }
{
    text.begin_object();
    text.whole_member("key", key);
    text.key("value");
    text.null();
    text.end_object()
}

/// Adds a key and what a map holds there.
fn put_entry(text: &mut JsonText, key: i64, value: &Flat<i64>)
    ensures { Adds text.old text.new (json_tokens (entry_value (key, value.now))) }
{
    match value {
        Flat::Bottom => put_unkeyed(text, key),
        Flat::Value(number) => put_keyed(text, key, *number),
    }
}

/// Adds the entries of a map.
#[tactic(auto, using(crate::proofs::Adding::leads_begin, crate::proofs::Adding::leads_more, crate::proofs::Adding::leads_end))]
fn put_map(text: &mut JsonText, map: &MapOf<i64, Flat<i64>>)
    ensures { Adds text.old text.new (json_tokens (each entry_value (entries_of map.now))) }
{
    text.begin_array();
    for (key, value) in map.entries() {
        put_entry(text, *key, value);
    }
    text.end_array()
}

/// Adds a key and its amount.
fn put_amount(text: &mut JsonText, key: i64, amount: MaxCounter)
    ensures { Adds text.old text.new (json_tokens (amount_value (key, amount))) }
{
    put_keyed(text, key, amount.get())
}

/// Adds the amounts of a tally.
#[tactic(auto, using(crate::proofs::Adding::leads_begin, crate::proofs::Adding::leads_more, crate::proofs::Adding::leads_end))]
fn put_tally(text: &mut JsonText, tally: &Tally)
    ensures { Adds text.old text.new (json_tokens (each amount_value (amounts_of tally.now))) }
{
    text.begin_array();
    for (key, amount) in tally.entries() {
        put_amount(text, *key, *amount);
    }
    text.end_array()
}

// What these four hold is told in a function of its own: the laws of a nested type are then proved once
// and not at each case of a match.

/// Adds the elements of a set that isn't empty.
fn put_set_state(text: &mut JsonText, set: &Above<GrowSet<i64>>)
    ensures { Adds text.old text.new (json_tokens (each whole (elements_of (state_of set.now)))) }
{
    put_set(text, set.state())
}

/// Adds the number of a counter above 0.
fn put_counter_state(text: &mut JsonText, counter: &Above<MaxCounter>)
    ensures { Adds text.old text.new (json_tokens (whole (number_of (state_of counter.now)))) }
{
    text.whole(counter.state().get())
}

/// Adds the entries of a map that has some.
fn put_map_state(text: &mut JsonText, map: &Above<MapOf<i64, Flat<i64>>>)
    ensures { Adds text.old text.new (json_tokens (each entry_value (entries_of (state_of map.now)))) }
{
    put_map(text, map.state())
}

/// Adds the amounts of a tally that has some.
fn put_tally_state(text: &mut JsonText, tally: &Above<Tally>)
    ensures { Adds text.old text.new (json_tokens (each amount_value (amounts_of (state_of tally.now)))) }
{
    put_tally(text, tally.state())
}

/// Adds an array without an item.
#[tactic(auto, using(crate::proofs::Adding::adds_then))]
fn put_none(text: &mut JsonText)
    ensures { Adds text.old text.new (json_tokens (each whole [])) }
{
    text.begin_array();
    text.end_array()
}

/// Adds a cell, a set or a counter; of another state, bottom.
fn put_simple(text: &mut JsonText, kind: SimpleKind, part: &Part)
    ensures { Adds text.old text.new (json_tokens (simple_content kind part.now)) }
{
    match (kind, part) {
        (SimpleKind::Cell, Part::Cell(number)) => text.whole(*number),
        (SimpleKind::Cell, _) => text.null(),
        (SimpleKind::Set, Part::Set(set)) => put_set_state(text, set),
        (SimpleKind::Set, _) => put_none(text),
        (SimpleKind::Max, Part::Max(counter)) => put_counter_state(text, counter),
        (SimpleKind::Max, _) => text.whole(0),
    }
}

/// Adds two sides.
#[tactic(auto, using(crate::proofs::Adding::adds_then))]
fn put_pair(text: &mut JsonText, kinds: (SimpleKind, SimpleKind), one: &Part, two: &Part)
    ensures { Adds text.old text.new (json_tokens (pair_content kinds.0 kinds.1 one.now two.now)) }
{
    text.begin_array();
    put_simple(text, kinds.0, one);
    put_simple(text, kinds.1, two);
    text.end_array()
}

/// Adds a state by the kind of its variable; of a state of another kind, bottom.
pub fn put_content(text: &mut JsonText, kind: VariableKind, state: &Any)
    ensures { Adds text.old text.new (json_tokens (content kind state.now)) }
{
    match (kind, state) {
        (VariableKind::Simple(kind), Any::Part(part)) => put_simple(text, kind, part),
        (VariableKind::Simple(kind), _) => put_simple(text, kind, &Part::Empty),
        (VariableKind::Map, Any::Map(map)) => put_map_state(text, map),
        (VariableKind::Map, _) => put_none(text),
        (VariableKind::Pair(a, b), Any::Sides(sides)) => {
            put_pair(text, (a, b), &sides.pair().one, &sides.pair().two)
        }
        (VariableKind::Pair(a, b), _) => put_pair(text, (a, b), &Part::Empty, &Part::Empty),
        (VariableKind::Tally, Any::Tally(tally)) => put_tally_state(text, tally),
        (VariableKind::Tally, _) => put_none(text),
    }
}

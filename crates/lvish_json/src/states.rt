ghost use Rattle.std.specs.Prelude.{[], ◌∷◌, codes};
ghost use Rattle.json.specs.Json.{array};
ghost use Rattle.json.specs.Token.{key, string};
ghost use Rattle.json.specs.Tree.{json_tokens};
ghost use Rattle.lvish_report.specs.Text.{variables_of};
ghost use Rattle.lvish_json.specs.Adds.{Adds};
ghost use Rattle.lvish_json.specs.Shape.{items_of};
ghost use Rattle.lvish_json.specs.Content.{kind_text, content};
ghost use Rattle.lvish_json.specs.Report.{state_value, state_values};

use crate::content::{kind_text, put_content};
use crate::text::JsonText;
use lvish_compound::Any;
use lvish_report::FinalState;
use lvish_syntax::{Declaration, Identifier, VariableKind};
use std::alloc::Global;

/// Adds a kind.
fn put_kind(alloc: Global, text: &mut JsonText, kind: VariableKind)
    ensures { Adds text.old text.new (string (kind_text kind) ∷ []) }
{
    match kind_text(alloc, kind) {
        Ok(words) => text.string(words.as_str()),
        Err(_) => text.fail(),
    }
}

/// Adds the member with a kind.
#[tactic(auto, using(crate::proofs::Adding::adds_then))]
fn kind_member(alloc: Global, text: &mut JsonText, kind: VariableKind)
    ensures { Adds text.old text.new (key (codes "kind") ∷ string (kind_text kind) ∷ []) }
{
    text.key("kind");
    put_kind(alloc, text, kind)
}

/// Adds the member with a content.
#[tactic(auto, using(crate::proofs::Adding::adds_then))]
fn content_member(text: &mut JsonText, kind: VariableKind, state: &Any)
    ensures { Adds text.old text.new (key (codes "content") ∷ json_tokens (content kind state.now)) }
{
    text.key("content");
    put_content(text, kind, state)
}

/// Adds a variable's state.
fn put_state(
    alloc: Global,
    text: &mut JsonText,
    name: &Identifier,
    kind: VariableKind,
    state: &FinalState<Any>,
)
    ensures { Adds text.old text.new (json_tokens (state_value (name.now, kind) state.now)) }
{
    text.begin_object();
    text.text_member("name", name.as_str());
    kind_member(alloc, text, kind);
    text.boolean_member("frozen", state.frozen);
    content_member(text, kind, &state.content);
    text.end_object()
}

/// Adds the states of the variables, in the order of their declarations.
pub fn put_states(
    alloc: Global,
    text: &mut JsonText,
    declarations: &[Declaration],
    states: &[FinalState<Any>],
)
    ensures { Adds text.old text.new (json_tokens (array (items_of (state_values (variables_of declarations.now) states.now)))) }
{
    text.begin_array();
    let mut place = 0;
    for i in 0..declarations.len() {
        if let Declaration::Variable(name, kind) = &declarations[i] {
            if let Some(state) = states.get(place) {
                put_state(alloc, text, name, *kind, state);
                place += 1;
            }
        }
    }
    text.end_array()
}

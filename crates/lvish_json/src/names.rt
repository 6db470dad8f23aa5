//! Names of variables, by their numbers.

ghost use Rattle.std.specs.Prelude.{◌≡◌, Some, option_map, slice_get};
ghost use Rattle.json.specs.Tree.{json_tokens};
ghost use Rattle.lvish_report.specs.Text.{variables_of};
ghost use Rattle.lvish_json.specs.Adds.{Adds};
ghost use Rattle.lvish_json.specs.Shape.{each, if_any};
ghost use Rattle.lvish_json.specs.Report.{name_value};

use crate::text::JsonText;
use lvish_syntax::{Declaration, Identifier};

/// The name of the variable with this number, if there is one.
fn name_at(declarations: &[Declaration], variable: usize) -> Option<&Identifier>
    ensures { option_map (λ name. name.now) result ≡ option_map (λ v. v.0) (slice_get (variables_of declarations.now) variable) }
{
    let mut left = variable;
    for i in 0..declarations.len() {
        if let Declaration::Variable(name, _) = &declarations[i] {
            if left == 0 {
                return Some(name);
            }
            left -= 1;
        }
    }
    None
}

/// Adds the name of the variable with this number.
fn put_name(text: &mut JsonText, declarations: &[Declaration], variable: usize)
    ensures { Adds text.old text.new (json_tokens (name_value (variables_of declarations.now) variable)) }
{
    match name_at(declarations, variable) {
        Some(name) => text.string(name.as_str()),
        None => text.null(),
    }
}

/// Adds the name of a variable, or null where there is none.
pub fn put_name_if_any(text: &mut JsonText, declarations: &[Declaration], variable: Option<usize>)
    ensures { Adds text.old text.new (json_tokens (if_any (name_value (variables_of declarations.now)) variable)) }
{
    match variable {
        Some(variable) => put_name(text, declarations, variable),
        None => text.null(),
    }
}

/// Adds the names of variables.
#[tactic(auto, using(crate::proofs::Adding::place_written))]
pub fn put_names(text: &mut JsonText, declarations: &[Declaration], variables: &[usize])
    ensures { Adds text.old text.new (json_tokens (each (name_value (variables_of declarations.now)) variables.now)) }
{
    text.begin_array();
    for variable in variables {
        put_name(text, declarations, *variable);
    }
    text.end_array()
}

ghost use Rattle.std.specs.Prelude.{◌≡◌, IfOk};
ghost use Rattle.json.specs.Tree.{json_tokens};
ghost use Rattle.lvish_report.specs.Text.{variables_of};
ghost use Rattle.lvish_json.specs.Adds.{Adds};
ghost use Rattle.lvish_json.specs.Shape.{each, IsLineOf};
ghost use Rattle.lvish_json.specs.Tried.{found_value, tried_value};

use crate::report::put_report;
use crate::text::JsonText;
use lvish_syntax::Script;
use lvish_try::{Found, Tried};
use std::alloc::{AllocError, Global};

/// Adds an outcome, and how often runs came to it.
#[tactic(auto, using(crate::proofs::Adding::adds_then))]
fn put_found(alloc: Global, text: &mut JsonText, script: &Script, found: &Found)
    ensures { Adds text.old text.new (json_tokens (found_value (variables_of script.now.declarations) found.now)) }
{
    text.begin_object();
    text.count_member("times", found.times);
    text.key("report");
    put_report(
        alloc,
        text,
        script,
        &found.report,
        Some(found.picks.as_slice()),
    );
    text.end_object()
}

/// Adds outcomes.
fn put_all_found(alloc: Global, text: &mut JsonText, script: &Script, all: &[Found])
    ensures { Adds text.old text.new (json_tokens (each (found_value (variables_of script.now.declarations)) all.now)) }
{
    text.begin_array();
    for found in all {
        put_found(alloc, text, script, found);
    }
    text.end_array()
}

/// Adds what tried runs came to.
#[tactic(auto, using(crate::proofs::Adding::adds_then))]
fn put_tried(alloc: Global, text: &mut JsonText, script: &Script, tried: &Tried)
    ensures { Adds text.old text.new (json_tokens (tried_value (variables_of script.now.declarations) tried.now)) }
{
    text.begin_object();
    text.count_member("times", tried.times);
    text.count_member("seed", tried.seed);
    text.key("found");
    put_all_found(alloc, text, script, tried.found.as_slice());
    text.end_object()
}

/// What tried runs came to, as a JSON line: how many there were, from which seed, and of each outcome
/// how often it came, with the report of a run that came to it and its picks.
///
/// # Errors
///
/// `AllocError` where a growth was refused.
pub fn tried_json(alloc: Global, script: &Script, tried: &Tried) -> Result<Vec<u8>, AllocError>
    ensures { IfOk result (λ bytes. IsLineOf (tried_value (variables_of script.now.declarations) tried.now) bytes.items) }
{
    let mut text = JsonText::new(alloc);
    put_tried(alloc, &mut text, script, tried);
    text.into_line()
}

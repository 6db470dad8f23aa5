//! What a script does, as lines.

ghost use Rattle.std.specs.Prelude.{◌≡◌, ◌++◌, ◌∷◌, IfOk, OnOk, string_bytes};
ghost use Rattle.std.specs.List.{flat_map};
ghost use Rattle.lvish_graph.specs.Text.{spaced, line_text, verb_line, pool_head, pool_line, deeds_text, procedure_text, graph_text};

use crate::deed::{Deed, deeds_of};
use crate::names::pool_names;
use crate::told::{handlers, targets};
use crate::verb::{VERBS, Verb};
use lvish_syntax::{Identifier, Procedure, Script};
use std::alloc::{AllocError, Global};

/// Names, each after a space.
fn push_spaced(text: &mut String, names: &[Identifier]) -> Result<(), AllocError>
    ensures { OnOk result (string_bytes text.new ≡ string_bytes text.old ++ spaced names.now) }
{
    for name in names {
        text.push(' ')?;
        text.push_str(name.as_str())?;
    }
    Ok(())
}

/// A line with these names, unless there are none.
fn push_line(text: &mut String, head: &str, names: &[Identifier]) -> Result<(), AllocError>
    ensures { OnOk result (string_bytes text.new ≡ string_bytes text.old ++ line_text head.now names.now) }
{
    if names.is_empty() {
        return Ok(());
    }
    text.push_str("  ")?;
    text.push_str(head)?;
    push_spaced(text, names)?;
    text.push('\n')?;
    Ok(())
}

/// The line of a verb.
fn push_verb_line(
    alloc: Global,
    text: &mut String,
    script: &Script,
    deeds: &[Deed],
    verb: Verb,
) -> Result<(), AllocError>
    ensures { OnOk result (string_bytes text.new ≡ string_bytes text.old ++ verb_line script.now deeds.now verb) }
{
    let names = targets(alloc, script, deeds, verb)?;
    push_line(text, verb.text(), names.as_slice())
}

/// The line of a pool's handlers.
fn push_pool_line(
    alloc: Global,
    text: &mut String,
    script: &Script,
    deeds: &[Deed],
    pool: &Identifier,
) -> Result<(), AllocError>
    ensures { OnOk result (string_bytes text.new ≡ string_bytes text.old ++ pool_line script.now deeds.now pool.now) }
{
    let names = handlers(alloc, script, deeds, pool)?;
    let head = pool_head(alloc, pool)?;
    push_line(text, head.as_str(), names.as_slice())
}

/// The head of the line of a pool's handlers.
fn pool_head(alloc: Global, pool: &Identifier) -> Result<String, AllocError>
    ensures { IfOk result (λ head. string_bytes head ≡ pool_head pool.now) }
{
    let pool = pool.as_str();
    format!(in alloc; "handles {pool} by")
}

/// The lines of deeds.
fn push_deeds(
    alloc: Global,
    text: &mut String,
    script: &Script,
    deeds: &[Deed],
) -> Result<(), AllocError>
    ensures { OnOk result (string_bytes text.new ≡ string_bytes text.old ++ deeds_text script.now deeds.now) }
{
    for verb in VERBS.as_slice() {
        push_verb_line(alloc, text, script, deeds, *verb)?;
    }
    let pools = pool_names(alloc, script.declarations())?;
    for pool in pools.as_slice() {
        push_pool_line(alloc, text, script, deeds, pool)?;
    }
    Ok(())
}

/// The lines of a procedure.
fn push_procedure(
    alloc: Global,
    text: &mut String,
    script: &Script,
    procedure: &Procedure,
) -> Result<(), AllocError>
    ensures { OnOk result (string_bytes text.new ≡ string_bytes text.old ++ procedure_text script.now procedure.now) }
{
    let deeds = deeds_of(alloc, procedure)?;
    text.push_str(procedure.name.as_str())?;
    text.push('\n')?;
    push_deeds(alloc, text, script, deeds.as_slice())
}

/// What a script does: the name of each procedure in the order of the text, and below it a line for
/// each kind of thing that its statements do, with all names that it is done to, in the order of
/// their declarations.
///
/// # Errors
///
/// `AllocError` where a growth was refused.
pub fn graph_text(alloc: Global, script: &Script) -> Result<String, AllocError>
    ensures { IfOk result (λ text. string_bytes text ≡ graph_text script.now) }
{
    let mut text = String::new(alloc);
    for procedure in script.procedures() {
        push_procedure(alloc, &mut text, script, procedure)?;
    }
    Ok(text)
}

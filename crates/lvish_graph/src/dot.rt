//! What a script does, as a graph for Graphviz: variables are ellipses, pools diamonds, procedures
//! boxes. Each kind has node names of its own, since a variable, a pool and a procedure may share a
//! name.

ghost use Rattle.std.specs.Prelude.{◌≡◌, ◌++◌, codes, IfOk, OnOk, string_bytes};
ghost use Rattle.std.specs.List.{flat_map};
ghost use Rattle.lvish_graph.specs.Dot.{node, target_node, variable_node, pool_node, procedure_node, node_line, edge_line, plain_edge_line, declaration_lines, procedure_line, verb_edges, pool_edges, deeds_edges, procedure_edges, graph_dot};

use crate::deed::{Deed, deeds_of};
use crate::names::pool_names;
use crate::told::{handlers, targets};
use crate::verb::{VERBS, Verb};
use lvish_syntax::{Declaration, Identifier, Procedure, Script};
use std::alloc::{AllocError, Global};

/// How a node is named in edges.
fn node(alloc: Global, kind: &str, name: &Identifier) -> Result<String, AllocError>
    ensures { IfOk result (λ text. string_bytes text ≡ node kind.now name.now) }
{
    let name = name.as_str();
    format!(in alloc; "\"{kind} {name}\"")
}

fn variable_node(alloc: Global, name: &Identifier) -> Result<String, AllocError>
    ensures { IfOk result (λ text. string_bytes text ≡ variable_node name.now) }
{
    node(alloc, "variable", name)
}

fn pool_node(alloc: Global, name: &Identifier) -> Result<String, AllocError>
    ensures { IfOk result (λ text. string_bytes text ≡ pool_node name.now) }
{
    node(alloc, "pool", name)
}

fn procedure_node(alloc: Global, name: &Identifier) -> Result<String, AllocError>
    ensures { IfOk result (λ text. string_bytes text ≡ procedure_node name.now) }
{
    node(alloc, "procedure", name)
}

/// The node of the one to which this is done.
fn target_node(alloc: Global, verb: Verb, name: &Identifier) -> Result<String, AllocError>
    ensures { IfOk result (λ text. string_bytes text ≡ target_node verb name.now) }
{
    match verb {
        Verb::Puts => variable_node(alloc, name),
        Verb::Reads => variable_node(alloc, name),
        Verb::Freezes => variable_node(alloc, name),
        Verb::Awaits => pool_node(alloc, name),
        Verb::Forks => procedure_node(alloc, name),
        Verb::Calls => procedure_node(alloc, name),
    }
}

/// The line of a node.
fn push_node(
    alloc: Global,
    text: &mut String,
    node: &str,
    name: &Identifier,
    shape: &str,
) -> Result<(), AllocError>
    ensures { OnOk result (string_bytes text.new ≡ string_bytes text.old ++ node_line node.now name.now shape.now) }
{
    let name = name.as_str();
    let line = format!(in alloc; "  {node} [label=\"{name}\", shape={shape}];\n")?;
    text.push_str(line.as_str())
}

/// The line of an edge.
fn push_edge(
    alloc: Global,
    text: &mut String,
    from: &str,
    to: &str,
    label: &str,
) -> Result<(), AllocError>
    ensures { OnOk result (string_bytes text.new ≡ string_bytes text.old ++ edge_line from.now to.now label.now) }
{
    let line = format!(in alloc; "  {from} -> {to} [label=\"{label}\"];\n")?;
    text.push_str(line.as_str())
}

/// The line of an edge without a label.
fn push_plain_edge(alloc: Global, text: &mut String, from: &str, to: &str) -> Result<(), AllocError>
    ensures { OnOk result (string_bytes text.new ≡ string_bytes text.old ++ plain_edge_line from.now to.now) }
{
    let line = format!(in alloc; "  {from} -> {to};\n")?;
    text.push_str(line.as_str())
}

/// The lines of a pool: its node, and an edge from its variable.
fn push_pool(
    alloc: Global,
    text: &mut String,
    pool: &Identifier,
    variable: &Identifier,
) -> Result<(), AllocError>
    ensures { OnOk result (string_bytes text.new ≡ string_bytes text.old ++ (node_line (pool_node pool.now) pool.now (codes "diamond") ++ plain_edge_line (variable_node variable.now) (pool_node pool.now))) }
{
    let node = pool_node(alloc, pool)?;
    let from = variable_node(alloc, variable)?;
    push_node(alloc, text, node.as_str(), pool, "diamond")?;
    push_plain_edge(alloc, text, from.as_str(), node.as_str())
}

/// The lines of a declaration.
fn push_declaration(
    alloc: Global,
    text: &mut String,
    declaration: &Declaration,
) -> Result<(), AllocError>
    ensures { OnOk result (string_bytes text.new ≡ string_bytes text.old ++ declaration_lines declaration.now) }
{
    match declaration {
        Declaration::Variable(name, _) => {
            let node = variable_node(alloc, name)?;
            push_node(alloc, text, node.as_str(), name, "ellipse")
        }
        Declaration::Pool(pool, variable) => push_pool(alloc, text, pool, variable),
    }
}

/// The line of a procedure's node.
fn push_procedure(alloc: Global, text: &mut String, procedure: &Procedure) -> Result<(), AllocError>
    ensures { OnOk result (string_bytes text.new ≡ string_bytes text.old ++ procedure_line procedure.now) }
{
    let node = procedure_node(alloc, &procedure.name)?;
    push_node(alloc, text, node.as_str(), &procedure.name, "box")
}

/// An edge from a procedure to each to which its deeds do this.
fn push_verb_edges(
    alloc: Global,
    text: &mut String,
    script: &Script,
    deeds: &[Deed],
    from: &Identifier,
    verb: Verb,
) -> Result<(), AllocError>
    ensures { OnOk result (string_bytes text.new ≡ string_bytes text.old ++ verb_edges script.now deeds.now from.now verb) }
{
    let names = targets(alloc, script, deeds, verb)?;
    let from = procedure_node(alloc, from)?;
    for name in names.as_slice() {
        let to = target_node(alloc, verb, name)?;
        push_edge(alloc, text, from.as_str(), to.as_str(), verb.text())?;
    }
    Ok(())
}

/// An edge from a pool to each procedure that its handlers run, with the name of the procedure that
/// adds them.
fn push_pool_edges(
    alloc: Global,
    text: &mut String,
    script: &Script,
    deeds: &[Deed],
    from: &Identifier,
    pool: &Identifier,
) -> Result<(), AllocError>
    ensures { OnOk result (string_bytes text.new ≡ string_bytes text.old ++ pool_edges script.now deeds.now from.now pool.now) }
{
    let names = handlers(alloc, script, deeds, pool)?;
    let pool = pool_node(alloc, pool)?;
    let adder = from.as_str();
    let label = format!(in alloc; "{adder} handles")?;
    for name in names.as_slice() {
        let to = procedure_node(alloc, name)?;
        push_edge(alloc, text, pool.as_str(), to.as_str(), label.as_str())?;
    }
    Ok(())
}

/// The edges of a procedure's deeds.
fn push_deeds(
    alloc: Global,
    text: &mut String,
    script: &Script,
    deeds: &[Deed],
    from: &Identifier,
) -> Result<(), AllocError>
    ensures { OnOk result (string_bytes text.new ≡ string_bytes text.old ++ deeds_edges script.now deeds.now from.now) }
{
    for verb in VERBS.as_slice() {
        push_verb_edges(alloc, text, script, deeds, from, *verb)?;
    }
    let pools = pool_names(alloc, script.declarations())?;
    for pool in pools.as_slice() {
        push_pool_edges(alloc, text, script, deeds, from, pool)?;
    }
    Ok(())
}

/// The edges of a procedure.
fn push_procedure_edges(
    alloc: Global,
    text: &mut String,
    script: &Script,
    procedure: &Procedure,
) -> Result<(), AllocError>
    ensures { OnOk result (string_bytes text.new ≡ string_bytes text.old ++ procedure_edges script.now procedure.now) }
{
    let deeds = deeds_of(alloc, procedure)?;
    push_deeds(alloc, text, script, deeds.as_slice(), &procedure.name)
}

/// The same as [`graph_text`](crate::graph_text) tells, as a graph in Graphviz's language.
///
/// # Errors
///
/// `AllocError` where a growth was refused.
pub fn graph_dot(alloc: Global, script: &Script) -> Result<String, AllocError>
    ensures { IfOk result (λ text. string_bytes text ≡ graph_dot script.now) }
{
    let mut text = String::new(alloc);
    text.push_str("digraph {\n")?;
    for declaration in script.declarations() {
        push_declaration(alloc, &mut text, declaration)?;
    }
    for procedure in script.procedures() {
        push_procedure(alloc, &mut text, procedure)?;
    }
    for procedure in script.procedures() {
        push_procedure_edges(alloc, &mut text, script, procedure)?;
    }
    text.push_str("}\n")?;
    Ok(text)
}

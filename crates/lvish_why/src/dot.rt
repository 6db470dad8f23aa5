//! A derivation as a graph for Graphviz.

use crate::derivation::{Node, What};
use crate::page::Page;
use crate::words::{Row, is_blank};
use lvish_explain::Draft;
use std::alloc::{AllocError, Global};

/// Adds a node's name: that of a put is the same wherever it stands.
fn push_name(text: &mut Draft, node: Node, place: usize) {
    match node.what {
        What::Put(put) | What::Again(put) => {
            text.add(b"put");
            text.add_count(put as u64);
        }
        What::Total { .. } | What::Frozen { .. } | What::More => {
            text.add(b"part");
            text.add_count(place as u64);
        }
    }
}

/// Adds a line of a label, unless it is empty.
fn push_label_line(text: &mut Draft, before: &[u8], part: &Draft, after: &[u8]) {
    if !is_blank(part) {
        text.add(before);
        text.add_draft(part);
        text.add(after);
    }
}

/// Adds the line that draws a node.
fn push_node(text: &mut Draft, node: Node, place: usize, row: &Row) {
    text.add(b"  ");
    push_name(text, node, place);
    text.add(b" [label=\"");
    text.add_draft(&row.event);
    push_label_line(text, b"\\n", &row.line, b": ");
    text.add_draft(&row.statement);
    push_label_line(text, b"\\n", &row.who, b"");
    text.add(b"\"]\n");
}

/// Adds the line that draws an edge to a node from what it follows from.
fn push_edge(text: &mut Draft, nodes: &[Node], node: Node, place: usize) {
    let Some(below) = node.below else {
        return;
    };
    let Some(above) = nodes.get(below) else {
        return;
    };
    text.add(b"  ");
    push_name(text, node, place);
    text.add(b" -> ");
    push_name(text, *above, below);
    text.add(b"\n");
}

/// The graph of a derivation: an edge leads from each event to what follows from it.
pub fn dot_text(alloc: Global, page: &Page<'_, '_>, nodes: &[Node]) -> Result<Vec<u8>, AllocError> {
    let mut text = Draft::new(alloc);
    text.add(b"digraph why {\n  rankdir=BT\n  node [shape=box]\n");
    for place in 0..nodes.len() {
        let node = nodes[place];
        if !matches!(node.what, What::Again(_)) {
            let row = page.row_of(alloc, node);
            push_node(&mut text, node, place, &row);
        }
        push_edge(&mut text, nodes, node, place);
    }
    text.add(b"}\n");
    text.into_bytes()
}

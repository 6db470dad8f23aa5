//! A derivation as an indented tree.

use crate::derivation::Node;
use crate::page::Page;
use crate::words::{Row, is_blank};
use lvish_explain::Draft;
use std::alloc::{AllocError, Global};

/// Whether each part is the last of those below the same one.
fn last_ones(alloc: Global, nodes: &[Node]) -> Result<Vec<bool>, AllocError> {
    let mut last = Vec::new(alloc);
    last.resize(nodes.len(), false)?;
    let mut seen = Vec::new(alloc);
    seen.resize(nodes.len(), false)?;
    for place in (0..nodes.len()).rev() {
        if let Some(below) = nodes[place].below {
            if below < seen.len() && !seen[below] {
                seen[below] = true;
                last[place] = true;
            }
        }
    }
    Ok(last)
}

/// The part of this place, and those above it but for the first, the outermost last.
fn branch(alloc: Global, nodes: &[Node], place: usize) -> Result<Vec<usize>, AllocError> {
    let mut found = Vec::new(alloc);
    let mut place = place;
    for _ in 0..nodes.len() {
        match nodes.get(place) {
            Some(
                Node {
                    below: Some(below),
                    ..
                },
            ) => {
                found.push(place)?;
                place = *below;
            }
            _ => return Ok(found),
        }
    }
    Ok(found)
}

/// Whether the flag at the place is set.
fn is_set(flags: &[bool], place: usize) -> bool {
    match flags.get(place) {
        Some(flag) => *flag,
        None => false,
    }
}

/// The line that leads to a part, or past it: to the part itself or to one below it, where it is the last
/// or not.
fn drawn(is_own: bool, is_last: bool) -> &'static str {
    match (is_own, is_last) {
        (true, true) => "└ ",
        (true, false) => "├ ",
        (false, true) => "  ",
        (false, false) => "│ ",
    }
}

/// Adds the lines that lead to the innermost part of a branch.
fn push_branch(text: &mut Draft, branch: &[usize], last: &[bool]) {
    for number in (0..branch.len()).rev() {
        let is_last = is_set(last, branch[number]);
        text.add(drawn(number == 0, is_last).as_bytes());
    }
}

/// Adds so many spaces.
fn push_spaces(text: &mut Draft, count: usize) {
    for _ in 0..count {
        text.add(b" ");
    }
}

/// How wide a row is before its line.
fn width_of(node: Node, row: &Row) -> usize {
    node.depth
        .saturating_mul(2)
        .saturating_add(row.event.bytes.len())
        .saturating_add(3)
        .saturating_add(row.statement.bytes.len())
}

/// The rows of the parts.
fn rows_of(alloc: Global, page: &Page<'_, '_>, nodes: &[Node]) -> Result<Vec<Row>, AllocError> {
    let mut rows = Vec::new(alloc);
    for node in nodes {
        rows.push(page.row_of(alloc, *node))?;
    }
    Ok(rows)
}

/// How wide the rows that name a line are before it, at most.
fn widest(nodes: &[Node], rows: &[Row]) -> usize {
    let mut widest = 0;
    for (node, row) in nodes.iter().zip(rows) {
        if !is_blank(&row.line) {
            widest = width_of(*node, row).max(widest);
        }
    }
    widest
}

/// Adds a column behind three spaces, unless it is empty.
fn push_column(text: &mut Draft, column: &Draft) {
    if !is_blank(column) {
        text.add(b"   ");
        text.add_draft(column);
    }
}

/// Adds a row behind what leads to it.
fn push_row(text: &mut Draft, node: Node, row: &Row, widest: usize) {
    text.add_draft(&row.event);
    push_column(text, &row.statement);
    if !is_blank(&row.line) {
        push_spaces(text, widest.saturating_sub(width_of(node, row)));
    }
    push_column(text, &row.line);
    push_column(text, &row.who);
    text.add(b"\n");
}

/// The tree of a derivation: a row for each part, below the one that follows from it.
pub fn tree_text(
    alloc: Global,
    page: &Page<'_, '_>,
    nodes: &[Node],
) -> Result<Vec<u8>, AllocError> {
    let rows = rows_of(alloc, page, nodes)?;
    let last = last_ones(alloc, nodes)?;
    let widest = widest(nodes, rows.as_slice());
    let mut text = Draft::new(alloc);
    for place in 0..nodes.len() {
        let branch = branch(alloc, nodes, place)?;
        push_branch(&mut text, branch.as_slice(), last.as_slice());
        if let Some(row) = rows.get(place) {
            push_row(&mut text, nodes[place], row, widest);
        }
    }
    text.into_bytes()
}

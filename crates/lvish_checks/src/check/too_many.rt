ghost use Rattle.std.specs.Prelude.{◌≡◌, ◌+◌, ◌<◌, ◌≤◌, ◌^◌, [], List, IfOk, count_by, if◌then◌else◌};
ghost use Rattle.lvish_checks.specs.declared.line.Line.{Line};
ghost use Rattle.lvish_checks.specs.declared.fault.Fault.TheVariants.{TooMany};
ghost use Rattle.lvish_checks.specs.Checks.{is_variable, is_pool, is_procedure, is_past_limit, open_after, line_fails, on_line, IsFirstOn};

use crate::declared::{is_pool, is_procedure, is_variable};
use crate::line::Line;
use crate::open_blocks::OpenBlocks;
use lvish_syntax::{Declaration, MOST};
use std::alloc::{AllocError, Global};

/// How many variables, pools and procedures lines declare, and what is open below them.
#[derive(Drop)]
struct LineCounts {
    variables: usize,
    pools: usize,
    procedures: usize,
    opened: OpenBlocks,
}

/// Whether a line passes a limit below lines with this tally.
fn is_past_limit(tally: &LineCounts, line: &Line) -> bool
    ensures { (before : List Line) → tally.now.variables ≡ count_by is_variable before → tally.now.pools ≡ count_by is_pool before → tally.now.procedures ≡ count_by is_procedure before → tally.now.opened ≡ open_after [] before → result ≡ is_past_limit before line.now }
{
    match line {
        Line::Declare(declaration) => match declaration.get() {
            Declaration::Variable(_, _) => tally.variables >= MOST,
            Declaration::Pool(_, _) => tally.pools >= MOST,
        },
        Line::Proc(_, _) => tally.procedures >= MOST,
        Line::If(_) | Line::While(_) => tally.opened.depth() >= MOST,
        _ => false,
    }
}

fn counted(count: usize, one_more: bool) -> usize
    requires { count < 2 ^ 63 }
    ensures value { result ≡ count + (if one_more then 1 else 0) }
    ensures at_most { result ≤ count + 1 }
{
    if one_more { count + 1 } else { count }
}

/// The first line that declares more variables, pools or procedures than there may be, or opens a
/// block deeper than blocks may stand.
pub fn first_too_many(alloc: Global, lines: &[Line]) -> Result<Option<usize>, AllocError>
    ensures { IfOk result (λ found. IsFirstOn (on_line (line_fails TooMany lines.now) lines.now) found) }
{
    let mut tally = LineCounts {
        variables: 0,
        pools: 0,
        procedures: 0,
        opened: OpenBlocks::new(alloc),
    };
    for k in 0..lines.len() {
        let line = &lines[k];
        if is_past_limit(&tally, line) {
            return Ok(Some(k + 1));
        }
        tally.variables = counted(tally.variables, is_variable(line));
        tally.pools = counted(tally.pools, is_pool(line));
        tally.procedures = counted(tally.procedures, is_procedure(line));
        tally.opened.add(line)?;
    }
    Ok(None)
}

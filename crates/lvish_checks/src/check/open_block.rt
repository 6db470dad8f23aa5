ghost use Rattle.std.specs.Prelude.{◌≡◌, ◌&&◌, ◌||◌, IfOk, OnOk, not};
ghost use Rattle.lvish_checks.specs.declared.fault.Fault.TheVariants.{OpenBlock};
ghost use Rattle.lvish_checks.specs.Checks.{is_misplaced, is_nil, open_step, line_fails, on_line, IsFirstOn};

use crate::line::Line;
use crate::open_blocks::OpenBlocks;
use std::alloc::{AllocError, Global};

fn is_misplaced(opened: &OpenBlocks, line: &Line) -> bool
    ensures { result ≡ is_misplaced opened.now line.now }
{
    match line {
        Line::Proc(_, _) => !opened.is_empty(),
        Line::Do(_) | Line::If(_) | Line::While(_) | Line::End => opened.is_empty(),
        Line::Else => !opened.takes_else(),
        Line::Blank | Line::Bad | Line::Version | Line::Declare(_) => false,
    }
}

/// Whether something is open below the last line.
fn ends_open(opened: &OpenBlocks, is_last: bool) -> bool
    ensures { result ≡ (is_last && not (is_nil opened.now)) }
{
    is_last && !opened.is_empty()
}

/// Takes a line, and says whether it stands where it may not, or something is open below it as the
/// last.
fn fails_with(opened: &mut OpenBlocks, line: &Line, is_last: bool) -> Result<bool, AllocError>
    ensures fails { IfOk result (λ fails. fails ≡ (is_misplaced opened.old line.now || (is_last && not (is_nil (open_step opened.old line.now))))) }
    ensures opened { OnOk result (opened.new ≡ open_step opened.old line.now) }
{
    let misplaced = is_misplaced(opened, line);
    opened.add(line)?;
    Ok(misplaced || ends_open(opened, is_last))
}

/// The first line that stands where it may not; the last line, where something is open at the end.
pub fn first_open_block(alloc: Global, lines: &[Line]) -> Result<Option<usize>, AllocError>
    ensures { IfOk result (λ found. IsFirstOn (on_line (line_fails OpenBlock lines.now) lines.now) found) }
{
    let mut opened = OpenBlocks::new(alloc);
    for k in 0..lines.len() {
        if fails_with(&mut opened, &lines[k], k + 1 == lines.len())? {
            return Ok(Some(k + 1));
        }
    }
    Ok(None)
}

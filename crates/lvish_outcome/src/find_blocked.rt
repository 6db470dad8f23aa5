//! What is told of blocked tasks.

ghost use Rattle.std.specs.Prelude.{◌≡◌, IfOk, IfSome, map};
ghost use Rattle.lvish_outcome.specs.Outcome.{count_of};

use crate::find_command::command_at;
use crate::find_standing::standing_of;
use crate::find_trouble::Said;
use crate::standing::StandingText;
use crate::told::{BlockedTold, LineCount};
use crate::wait::Wait;
use lvish_compound::Event;
use lvish_names::TaskName;
use lvish_retrace::{Live, Told};
use lvish_syntax::Script;
use std::alloc::{AllocError, Global};

/// The lines at which tasks stand.
pub fn lines_of_live(alloc: Global, live: &[Live]) -> Result<Vec<usize>, AllocError> {
    let mut lines = Vec::new(alloc);
    for task in live {
        lines.push(task.standing.line)?;
    }
    Ok(lines)
}

/// The first of the tasks that stand at this line.
fn first_at<'b>(live: &'b [Live], line: usize) -> Option<&'b Live>
    ensures { IfSome result (λ l. l.now.standing.line ≡ line) }
{
    for task in live {
        if task.standing.line == line {
            return Some(task);
        }
    }
    None
}

/// What a task waits for.
fn wait_of<'b>(
    alloc: Global,
    lines: &[&[u8]],
    script: &'b Script,
    told: &Told<'_, '_>,
    live: &Live,
    standing: &StandingText<'b>,
) -> Result<Wait<'b>, AllocError> {
    let Some(command) = command_at(alloc, lines, standing.line)? else {
        return Ok(Wait::Other);
    };
    let said = Said {
        command: command.get(),
        declarations: script.declarations(),
        locals: standing.locals.as_slice(),
    };
    said.wait(alloc, told, live)
}

/// What is told of the tasks at a line.
fn blocked_at<'b>(
    alloc: Global,
    lines: &[&[u8]],
    script: &'b Script,
    told: &'b Told<'_, 'b>,
    counted: LineCount,
) -> Result<Option<BlockedTold<'b>>, AllocError>
    ensures { IfOk result (λ found. IfSome found (λ b. count_of b ≡ counted)) }
{
    let Some(live) = first_at(told.story.live.as_slice(), counted.line) else {
        return Ok(None);
    };
    let Some(task) = told.story.names.get(live.task) else {
        return Ok(None);
    };
    let standing = standing_of(
        alloc,
        told.story.procedures.as_slice(),
        task,
        &live.standing,
    )?;
    let wait = wait_of(alloc, lines, script, told, live, &standing)?;
    Ok(Some(BlockedTold {
        count: counted.count,
        standing,
        wait,
    }))
}

/// What is told of the tasks at these lines; `None` where no task stands at one of them.
pub fn blocked_told<'b>(
    alloc: Global,
    lines: &[&[u8]],
    script: &'b Script,
    told: &'b Told<'_, 'b>,
    counts: &[LineCount],
) -> Result<Option<Vec<BlockedTold<'b>>>, AllocError>
    ensures { IfOk result (λ found. IfSome found (λ v. map count_of v.items ≡ counts.now)) }
{
    let mut blocked = Vec::new(alloc);
    for counted in counts {
        match blocked_at(alloc, lines, script, told, *counted)? {
            Some(at_line) => blocked.push(at_line)?,
            None => return Ok(None),
        }
    }
    Ok(Some(blocked))
}

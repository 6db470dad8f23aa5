//! What is told of an error.

ghost use Rattle.std.specs.Prelude.{IfOk, IfSome};
ghost use Rattle.lvish_outcome.specs.Rests.{RestsOn};
ghost use Rattle.lvish_outcome.specs.Outcome.{IsOfError};

use crate::find_command::command_at;
use crate::find_earlier::{earlier_of, number_of, there_of};
use crate::find_standing::standing_of;
use crate::find_trouble::Said;
use crate::told::ErrorTold;
use crate::trouble::Trouble;
use lvish_calculus::ErrorKind;
use lvish_checks::words_of;
use lvish_compound::Event;
use lvish_explain::line_at;
use lvish_names::TaskName;
use lvish_retrace::{Live, Story};
use lvish_syntax::Script;
use std::alloc::{AllocError, Global};

/// The task of this name, if it hasn't ended.
fn live_named<'b>(told: &'b Story<'_>, task: &TaskName<Event>) -> Option<&'b Live> {
    for live in told.live.as_slice() {
        if told.names.get(live.task) == Some(task) {
            return Some(live);
        }
    }
    None
}

/// The word at which the carets stand, of a line with so many words: the variable or the pool, the
/// operator, the divisor, or the last word.
fn word_of(trouble: &Trouble<'_>, words: usize) -> usize {
    match trouble {
        Trouble::Overflow(_) => 3,
        Trouble::Zero(_) => 4,
        Trouble::Range(_, _, _) => words.saturating_sub(1),
        Trouble::Frames | Trouble::Parts => 0,
        _ => 1,
    }
}

/// What is told of an error that this task met; `None` where its line doesn't show how.
pub fn error_told<'b>(
    alloc: Global,
    lines: &[&[u8]],
    script: &'b Script,
    told: &'b Story<'b>,
    kind: ErrorKind,
    task: &'b TaskName<Event>,
) -> Result<Option<ErrorTold<'b>>, AllocError>
    ensures of { IfOk result (λ found. IfSome found (IsOfError kind task.now)) }
    ensures rests { IfOk result (λ found. IfSome found (λ e. RestsOn told.now.brought.items e.trouble e.earlier)) }
{
    let Some(live) = live_named(told, task) else {
        return Ok(None);
    };
    let standing = standing_of(alloc, told.procedures.as_slice(), task, &live.standing)?;
    let Some(command) = command_at(alloc, lines, standing.line)? else {
        return Ok(None);
    };
    let said = Said {
        command: command.get(),
        declarations: script.declarations(),
        locals: standing.locals.as_slice(),
    };
    let there = there_of(told.brought.as_slice(), live.act);
    let Some(trouble) = said.trouble(kind, number_of(there)) else {
        return Ok(None);
    };
    let words = words_of(alloc, line_at(lines, standing.line))?;
    let word = word_of(&trouble, words.len());
    let earlier = earlier_of(told, live.act, &trouble, there);
    Ok(Some(ErrorTold {
        standing,
        trouble,
        word,
        earlier,
    }))
}

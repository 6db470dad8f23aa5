//! Where a task stands.

ghost use Rattle.std.specs.Prelude.{codes};
ghost use Rattle.std.specs.List.{flat_map};
ghost use Rattle.lvish_explain.specs.Draft.{Adds};
ghost use Rattle.lvish_outcome.specs.Standing.{task_text, local_text, locals_text, in_text, times_text, called_line, called_lines, at_text, standing_text};

use lvish_compound::Event;
use lvish_explain::Draft;
use lvish_names::TaskName;

/// A local, and its value.
#[derive(Clone, Copy)]
pub struct LocalText<'a> {
    pub name: &'a [u8],
    pub value: i64,
}

/// The procedure that calls, the line of the call, and how many calls of that line follow each other.
#[derive(Clone, Copy)]
pub struct CallText<'a> {
    pub procedure: &'a [u8],
    pub line: usize,
    pub times: usize,
}

/// Where a task stands: the procedure that it is in, the line there, and its locals; then the calls that
/// led there, the innermost first.
pub struct StandingText<'a> {
    pub task: &'a TaskName<Event>,
    pub procedure: &'a [u8],
    pub line: usize,
    pub locals: Vec<LocalText<'a>>,
    pub calls: Vec<CallText<'a>>,
}

// Written out, so that it is proved once, and not at each exit of a function that owns one.
impl Drop for StandingText<'_> {
    fn drop(self) {
        let StandingText {
            task: _,
            procedure: _,
            line: _,
            locals: _,
            calls: _,
        } = self;
    }
}

/// The name of a task.
pub fn push_task(text: &mut Draft, task: &TaskName<Event>)
    ensures { Adds text.old text.new (task_text task.now) }
{
    let name = task.text(text.alloc);
    text.add_asked(name);
}

/// A local behind a comma, or another piece of text.
#[tactic(auto, using(lvish_explain::proofs::Adding::adds_then, lvish_explain::proofs::Adding::adds_none))]
fn push_local(text: &mut Draft, before: &[u8], local: &LocalText<'_>)
    ensures { Adds text.old text.new (local_text before.now local.now) }
{
    text.add(before);
    text.add(local.name);
    text.add(b" ");
    text.add_integer(local.value);
}

/// Locals behind others.
#[tactic(auto, using(lvish_explain::proofs::Adding::adds_joined, lvish_explain::proofs::Adding::adds_none))]
fn push_more_locals(text: &mut Draft, locals: &[LocalText<'_>])
    ensures { Adds text.old text.new (flat_map (local_text (codes ", ")) locals.now) }
{
    for local in locals {
        push_local(text, b", ", local);
    }
}

/// The locals, if there are any.
#[tactic(auto, using(lvish_explain::proofs::Adding::adds_then, lvish_explain::proofs::Adding::adds_none))]
fn push_locals(text: &mut Draft, locals: &[LocalText<'_>])
    ensures { Adds text.old text.new (locals_text locals.now) }
{
    match locals {
        [] => {}
        [first, rest @ ..] => {
            push_local(text, b", with ", first);
            push_more_locals(text, rest);
        }
    }
}

/// The procedure and the line.
#[tactic(auto, using(lvish_explain::proofs::Adding::adds_then, lvish_explain::proofs::Adding::adds_none))]
fn push_in(text: &mut Draft, procedure: &[u8], line: usize)
    ensures { Adds text.old text.new (in_text procedure.now line) }
{
    text.add(b"in ");
    text.add(procedure);
    text.add(b", line ");
    text.add_number(line);
}

/// How often, where that is more than once.
#[tactic(auto, using(lvish_explain::proofs::Adding::adds_then, lvish_explain::proofs::Adding::adds_none))]
fn push_times(text: &mut Draft, times: usize)
    ensures { Adds text.old text.new (times_text times) }
{
    if times <= 1 {
        return;
    }
    text.add(b", ");
    text.add_number(times);
    text.add(b" times");
}

/// The line of a call.
#[tactic(auto, using(lvish_explain::proofs::Adding::adds_then, lvish_explain::proofs::Adding::adds_none), unfolding(crate::specs::Standing::called_line))]
fn push_called(text: &mut Draft, call: &CallText<'_>)
    ensures { Adds text.old text.new (called_line call.now) }
{
    text.add(b"called: ");
    push_in(text, call.procedure, call.line);
    push_times(text, call.times);
    text.add(b"\n");
}

/// The lines of calls.
#[tactic(auto, using(lvish_explain::proofs::Adding::adds_joined, lvish_explain::proofs::Adding::adds_none))]
fn push_calls(text: &mut Draft, calls: &[CallText<'_>])
    ensures { Adds text.old text.new (called_lines calls.now) }
{
    for call in calls {
        push_called(text, call);
    }
}

/// The task, its procedure and its line.
#[tactic(auto, using(lvish_explain::proofs::Adding::adds_then, lvish_explain::proofs::Adding::adds_none))]
fn push_at(text: &mut Draft, standing: &StandingText<'_>)
    ensures { Adds text.old text.new (at_text standing.now) }
{
    text.add(b"at: ");
    push_task(text, standing.task);
    text.add(b", ");
    push_in(text, standing.procedure, standing.line);
}

/// Where the task stands, and a line for each call.
#[tactic(auto, using(lvish_explain::proofs::Adding::adds_then, lvish_explain::proofs::Adding::adds_none), unfolding(crate::specs::Standing::standing_text))]
pub fn push_standing(text: &mut Draft, standing: &StandingText<'_>)
    ensures { Adds text.old text.new (standing_text standing.now) }
{
    push_at(text, standing);
    push_locals(text, standing.locals.as_slice());
    text.add(b"\n");
    push_calls(text, standing.calls.as_slice());
}

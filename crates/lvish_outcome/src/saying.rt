//! What is said of a place.

ghost use Rattle.lvish_explain.specs.Draft.{Adds};
ghost use Rattle.lvish_outcome.specs.Telling.{does_text, waits_text, made_text, saying_text};

use crate::standing::push_task;
use crate::trouble::Trouble;
use crate::wait::Wait;
use lvish_compound::Event;
use lvish_explain::Draft;
use lvish_names::TaskName;

/// What is said of a place.
#[derive(Clone, Copy)]
pub enum Saying<'a> {
    /// What a task does.
    Does(&'a TaskName<Event>, &'a Trouble<'a>),
    /// How many tasks wait, the first of them, and for what.
    Waits(usize, &'a TaskName<Event>, &'a Wait<'a>),
    /// How many steps were made.
    Made(usize),
}

#[tactic(auto, using(lvish_explain::proofs::Adding::adds_then, lvish_explain::proofs::Adding::adds_none))]
fn push_does(text: &mut Draft, task: &TaskName<Event>, trouble: &Trouble<'_>)
    ensures { Adds text.old text.new (does_text task.now trouble.now) }
{
    push_task(text, task);
    text.add(b" ");
    trouble.push(text);
}

#[tactic(auto, using(lvish_explain::proofs::Adding::adds_then, lvish_explain::proofs::Adding::adds_none))]
fn push_waits(text: &mut Draft, count: usize, task: &TaskName<Event>, wait: &Wait<'_>)
    ensures { Adds text.old text.new (waits_text count task.now wait.now) }
{
    if count == 1 {
        push_task(text, task);
        text.add(b" waits ");
        wait.push(text);
        return;
    }
    text.add_number(count);
    text.add(b" tasks wait here, ");
    push_task(text, task);
    text.add(b" ");
    wait.push(text);
}

#[tactic(auto, using(lvish_explain::proofs::Adding::adds_then, lvish_explain::proofs::Adding::adds_none))]
fn push_made(text: &mut Draft, count: usize)
    ensures { Adds text.old text.new (made_text count) }
{
    if count == 1 {
        text.add(b"1 step was made here");
        return;
    }
    text.add_number(count);
    text.add(b" steps were made here");
}

impl Saying<'_> {
    pub fn push(&self, text: &mut Draft)
        ensures { Adds text.old text.new (saying_text self.now) }
    {
        match self {
            Saying::Does(task, trouble) => push_does(text, task, trouble),
            Saying::Waits(count, task, wait) => push_waits(text, *count, task, wait),
            Saying::Made(count) => push_made(text, *count),
        }
    }
}

//! An earlier step on which an error rests.

ghost use Rattle.std.specs.Prelude.{[], ◌∷◌, ◌++◌, codes};
ghost use Rattle.std.specs.Fmt.{decimal};
ghost use Rattle.lvish_explain.specs.Draft.{Adds};
ghost use Rattle.lvish_outcome.specs.Earlier.{earlier_text};

use crate::standing::push_task;
use lvish_compound::Event;
use lvish_explain::Draft;
use lvish_names::TaskName;

/// An earlier step on which an error rests: the task, its line, and the number of the step, from 1.
#[derive(Clone, Copy)]
pub enum Earlier<'a> {
    Nothing,
    /// It put what is there.
    Put(&'a TaskName<Event>, usize, usize),
    /// It froze the variable.
    Froze(&'a TaskName<Event>, usize, usize),
}

impl Earlier<'_> {
    /// Its line; nothing where there is none.
    #[tactic(auto, using(lvish_explain::proofs::Adding::adds_then, lvish_explain::proofs::Adding::adds_none))]
    pub fn push(&self, text: &mut Draft)
        ensures { Adds text.old text.new (earlier_text self.now) }
    {
        match self {
            Earlier::Nothing => {}
            Earlier::Put(task, line, step) => {
                text.add(b"there: ");
                push_task(text, task);
                text.add(b" put it at line ");
                push_step(text, *line, *step);
            }
            Earlier::Froze(task, line, step) => {
                text.add(b"frozen: ");
                push_task(text, task);
                text.add(b" did it at line ");
                push_step(text, *line, *step);
            }
        }
    }
}

/// A line, and the number of a step.
#[tactic(auto, using(lvish_explain::proofs::Adding::adds_then, lvish_explain::proofs::Adding::adds_none))]
fn push_step(text: &mut Draft, line: usize, step: usize)
    ensures { Adds text.old text.new (decimal line ++ (codes ", in step " ++ (decimal step ++ 10 ∷ []))) }
{
    text.add_number(line);
    text.add(b", in step ");
    text.add_number(step);
    text.add(b"\n");
}

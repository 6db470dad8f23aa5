ghost use Rattle.std.specs.Prelude.{◌≡◌};
ghost use Rattle.lvish_task.specs.Heard.{said};

use lvish_calculus::Reply;
use lvish_compound::Any;

/// What a task is told by a reply, whose content stays where it stands.
#[derive(Clone, Copy)]
pub enum Heard<'s> {
    /// The action was made.
    Done,
    /// The answer of a get.
    Answer(i64),
    /// The content of a frozen variable.
    Content(&'s Any),
}

impl<'s> Heard<'s> {
    /// What the reply tells.
    #[inline(always)]
    pub fn of(reply: &'s Reply<Any, i64>) -> Heard<'s>
        ensures { said result ≡ reply.now }
    {
        match reply {
            Reply::Done => Heard::Done,
            Reply::Answer(n) => Heard::Answer(*n),
            Reply::Content(content) => Heard::Content(content),
        }
    }
}

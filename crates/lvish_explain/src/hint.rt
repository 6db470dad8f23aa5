ghost use Rattle.lvish_explain.specs.Draft.{Adds};
ghost use Rattle.lvish_explain.specs.Text.{said_hint, line_hint, near_hint, word_hint, takes_hint, hint_text};

use crate::draft::Draft;
use crate::known::Known;

/// What may help.
#[derive(Clone, Copy)]
pub enum Hint<'a> {
    Nothing,
    Text(&'static str),
    /// A line, and what it does.
    Line(usize, &'static str),
    /// A declared name that is near.
    Near(Known<'a>),
    /// A first word of a line that is near.
    Word(&'a [u8]),
    /// The line of a procedure, and how many parameters it has.
    Takes(usize, usize),
}

/// The hint that a line does something.
#[tactic(auto, using(crate::proofs::Adding::adds_then, crate::proofs::Adding::adds_none))]
fn push_line_hint(text: &mut Draft, line: usize, said: &str)
    ensures { Adds text.old text.new (line_hint line said.now) }
{
    text.add(b"hint: line ");
    text.add_number(line);
    text.add(b" ");
    text.add(said.as_bytes());
    text.add(b"\n");
}

/// The hint that a line declares a name that is near.
#[tactic(auto, using(crate::proofs::Adding::adds_then, crate::proofs::Adding::adds_none))]
fn push_near_hint(text: &mut Draft, known: &Known<'_>)
    ensures { Adds text.old text.new (near_hint known.now) }
{
    text.add(b"hint: line ");
    text.add_number(known.line);
    text.add(b" declares `");
    text.add_shown(known.name);
    text.add(b"`, which is near");
    text.add(b"\n");
}

/// The hint that a first word is near.
#[tactic(auto, using(crate::proofs::Adding::adds_then, crate::proofs::Adding::adds_none))]
fn push_word_hint(text: &mut Draft, word: &[u8])
    ensures { Adds text.old text.new (word_hint word.now) }
{
    text.add(b"hint: `");
    text.add_shown(word);
    text.add(b"` is near");
    text.add(b"\n");
}

/// The hint that a procedure has so many parameters.
#[tactic(auto, using(crate::proofs::Adding::adds_then, crate::proofs::Adding::adds_none))]
fn push_takes_hint(text: &mut Draft, line: usize, count: usize)
    ensures { Adds text.old text.new (takes_hint line count) }
{
    text.add(b"hint: line ");
    text.add_number(line);
    text.add(b" declares it with this number of parameters: ");
    text.add_number(count);
    text.add(b"\n");
}

/// A hint that is the same for every text.
#[tactic(auto, using(crate::proofs::Adding::adds_then, crate::proofs::Adding::adds_none))]
fn push_said_hint(text: &mut Draft, said: &str)
    ensures { Adds text.old text.new (said_hint said.now) }
{
    text.add(b"hint: ");
    text.add(said.as_bytes());
    text.add(b"\n");
}

/// The line of a hint; nothing where there is none.
#[tactic(auto, using(crate::proofs::Adding::adds_then, crate::proofs::Adding::adds_none))]
pub fn push_hint(text: &mut Draft, hint: &Hint<'_>)
    ensures { Adds text.old text.new (hint_text hint.now) }
{
    match hint {
        Hint::Nothing => {}
        Hint::Text(said) => push_said_hint(text, said),
        Hint::Line(line, said) => push_line_hint(text, *line, said),
        Hint::Near(known) => push_near_hint(text, known),
        Hint::Word(word) => push_word_hint(text, word),
        Hint::Takes(line, count) => push_takes_hint(text, *line, *count),
    }
}

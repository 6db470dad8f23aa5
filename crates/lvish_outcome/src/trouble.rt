//! What went wrong in the last step of a run.

ghost use Rattle.std.specs.Prelude.{◌≡◌, ◌++◌, codes};
ghost use Rattle.std.specs.Fmt.{signed_decimal};
ghost use Rattle.lvish_explain.specs.Draft.{Adds};
ghost use Rattle.lvish_outcome.specs.Spot.{spot_text};
ghost use Rattle.lvish_outcome.specs.Trouble.{kind_of, operator_sign, sum_text, other_text, takes_text, range_text, trouble_text};

use crate::spot::Spot;
use lvish_calculus::ErrorKind;
use lvish_explain::Draft;
use lvish_syntax::Operator;

/// Two numbers, and what combines them.
#[derive(Clone, Copy)]
pub struct Sum {
    pub left: i64,
    pub operator: Operator,
    pub right: i64,
}

/// What went wrong, more closely than the error's kind says.
#[derive(Clone, Copy)]
pub enum Trouble<'a> {
    /// A number is put where another one is, the last.
    Other(Spot<'a>, i64, i64),
    /// An amount is put, and the total would be too great.
    Total(Spot<'a>, i64),
    /// A number is put into what is frozen.
    Frozen(Spot<'a>, i64),
    /// A handler is added to what is frozen.
    Late(Spot<'a>),
    Overflow(Sum),
    Zero(Sum),
    /// A number isn't from 0 to the last.
    Range(Spot<'a>, i64, i64),
    /// A call has no frame left.
    Frames,
    /// A name has no part left.
    Parts,
}

impl Trouble<'_> {
    /// The kind of the error.
    pub fn kind(&self) -> ErrorKind
        ensures { result ≡ kind_of self.now }
    {
        match self {
            Trouble::Other(_, _, _) => ErrorKind::Conflict,
            Trouble::Total(_, _) => ErrorKind::Conflict,
            Trouble::Frozen(_, _) => ErrorKind::Frozen,
            Trouble::Late(_) => ErrorKind::Late,
            Trouble::Overflow(_) => ErrorKind::Overflow,
            Trouble::Zero(_) => ErrorKind::Zero,
            Trouble::Range(_, _, _) => ErrorKind::Range,
            Trouble::Frames => ErrorKind::Deep,
            Trouble::Parts => ErrorKind::Deep,
        }
    }

    /// What the task does, behind its name.
    #[tactic(auto, using(lvish_explain::proofs::Adding::adds_then, lvish_explain::proofs::Adding::adds_none))]
    pub fn push(&self, text: &mut Draft)
        ensures { Adds text.old text.new (trouble_text self.now) }
    {
        match self {
            Trouble::Other(spot, number, there) => push_other(text, spot, *number, *there),
            Trouble::Total(spot, number) => push_put(
                text,
                spot,
                *number,
                b", and the total would be above 10000",
            ),
            Trouble::Frozen(spot, number) => push_put(text, spot, *number, b", which is frozen"),
            Trouble::Late(spot) => {
                text.add(b"adds a handler to ");
                spot.push(text);
                text.add(b", which is frozen");
            }
            Trouble::Overflow(sum) => push_sum(text, *sum, b"which is outside 64 bits"),
            Trouble::Zero(sum) => push_sum(text, *sum, b"where the divisor is 0"),
            Trouble::Range(spot, number, highest) => push_range(text, spot, *number, *highest),
            Trouble::Frames => text.add(b"calls in its 64th frame, which is the last"),
            Trouble::Parts => text.add(b"starts a task whose name would have 65 parts"),
        }
    }
}

#[tactic(auto, using(lvish_explain::proofs::Adding::adds_then, lvish_explain::proofs::Adding::adds_none))]
fn push_operator(text: &mut Draft, operator: Operator)
    ensures { Adds text.old text.new (operator_sign operator) }
{
    match operator {
        Operator::Add => text.add(b"+"),
        Operator::Subtract => text.add(b"-"),
        Operator::Multiply => text.add(b"*"),
        Operator::Divide => text.add(b"/"),
        Operator::Remainder => text.add(b"%"),
        Operator::Less => text.add(b"<"),
        Operator::Equal => text.add(b"="),
    }
}

/// The second of two numbers, and why they fail.
#[tactic(auto, using(lvish_explain::proofs::Adding::adds_then, lvish_explain::proofs::Adding::adds_none))]
fn push_right(text: &mut Draft, right: i64, fails: &[u8])
    ensures { Adds text.old text.new (codes " " ++ (signed_decimal right ++ (codes ", " ++ fails.now))) }
{
    text.add(b" ");
    text.add_integer(right);
    text.add(b", ");
    text.add(fails);
}

#[tactic(auto, using(lvish_explain::proofs::Adding::adds_then, lvish_explain::proofs::Adding::adds_none))]
fn push_sum(text: &mut Draft, sum: Sum, fails: &[u8])
    ensures { Adds text.old text.new (sum_text sum fails.now) }
{
    text.add(b"computes ");
    text.add_integer(sum.left);
    text.add(b" ");
    push_operator(text, sum.operator);
    push_right(text, sum.right, fails);
}

/// That a number is put, and what is said of that.
#[tactic(auto, using(lvish_explain::proofs::Adding::adds_then, lvish_explain::proofs::Adding::adds_none))]
fn push_put(text: &mut Draft, spot: &Spot<'_>, number: i64, said: &[u8])
    ensures { Adds text.old text.new (codes "puts " ++ (signed_decimal number ++ (codes " into " ++ (spot_text spot.now ++ said.now)))) }
{
    text.add(b"puts ");
    text.add_integer(number);
    text.add(b" into ");
    spot.push(text);
    text.add(said);
}

/// What is there.
#[tactic(auto, using(lvish_explain::proofs::Adding::adds_then, lvish_explain::proofs::Adding::adds_none))]
fn push_where(text: &mut Draft, there: i64)
    ensures { Adds text.old text.new (codes ", where " ++ (signed_decimal there ++ codes " is")) }
{
    text.add(b", where ");
    text.add_integer(there);
    text.add(b" is");
}

#[tactic(auto, using(lvish_explain::proofs::Adding::adds_then, lvish_explain::proofs::Adding::adds_none))]
fn push_other(text: &mut Draft, spot: &Spot<'_>, number: i64, there: i64)
    ensures { Adds text.old text.new (other_text spot.now number there) }
{
    text.add(b"puts ");
    text.add_integer(number);
    text.add(b" into ");
    spot.push(text);
    push_where(text, there);
}

/// That only numbers from 0 to the highest are taken.
fn push_takes(text: &mut Draft, highest: i64)
    ensures { Adds text.old text.new (codes ", " ++ takes_text highest) }
{
    text.add(b", which takes 0 to ");
    text.add_integer(highest);
}

fn push_range(text: &mut Draft, spot: &Spot<'_>, number: i64, highest: i64)
    ensures { Adds text.old text.new (range_text spot.now number highest) }
{
    text.add(b"has ");
    text.add_integer(number);
    text.add(b" for ");
    spot.push(text);
    push_takes(text, highest);
}

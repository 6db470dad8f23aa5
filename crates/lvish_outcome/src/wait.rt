//! What a blocked task waits for.

ghost use Rattle.lvish_explain.specs.Draft.{Adds};
ghost use Rattle.lvish_outcome.specs.Wait.{until_text, level_text, pools_text, has_ended, wait_text};

use crate::spot::Spot;
use lvish_explain::Draft;

/// What a blocked task waits for.
#[derive(Clone, Copy)]
pub enum Wait<'a> {
    /// Any number.
    Any(Spot<'a>),
    /// One of the numbers of the line.
    In(Spot<'a>),
    Has(Spot<'a>, i64),
    Least(Spot<'a>, i64),
    Total(Spot<'a>, i64),
    /// That so many tasks end, which run in the pools of the line.
    Pools(usize),
    /// The same, and it is one of them.
    OwnPool(usize),
    /// That handlers are handed all that is in it.
    Handlers(Spot<'a>),
    /// No more is known.
    Other,
}

impl Wait<'_> {
    /// Until when it waits.
    #[tactic(auto, using(lvish_explain::proofs::Adding::adds_then, lvish_explain::proofs::Adding::adds_none))]
    pub fn push(&self, text: &mut Draft)
        ensures { Adds text.old text.new (wait_text self.now) }
    {
        match self {
            Wait::Any(spot) => push_until(text, b"until ", spot, b" has a number"),
            Wait::In(spot) => push_until(text, b"until ", spot, b" has one of these numbers"),
            Wait::Has(spot, number) => push_level(text, b"until ", spot, b" has ", *number),
            Wait::Least(spot, number) => {
                push_level(text, b"until ", spot, b" is at least ", *number)
            }
            Wait::Total(spot, number) => {
                push_level(
                    text,
                    b"until the total of ",
                    spot,
                    b" is at least ",
                    *number,
                )
            }
            Wait::Pools(running) => push_pools(text, *running, b""),
            Wait::OwnPool(running) => push_pools(text, *running, b", of which it is one"),
            Wait::Handlers(spot) => {
                push_until(text, b"until handlers were handed all of ", spot, b"")
            }
            Wait::Other => text.add(b"until this line can go on"),
        }
    }
}

#[tactic(auto, using(lvish_explain::proofs::Adding::adds_then, lvish_explain::proofs::Adding::adds_none))]
fn push_until(text: &mut Draft, until: &[u8], spot: &Spot<'_>, is: &[u8])
    ensures { Adds text.old text.new (until_text until.now spot.now is.now) }
{
    text.add(until);
    spot.push(text);
    text.add(is);
}

#[tactic(auto, using(lvish_explain::proofs::Adding::adds_then, lvish_explain::proofs::Adding::adds_none))]
fn push_level(text: &mut Draft, until: &[u8], spot: &Spot<'_>, is: &[u8], number: i64)
    ensures { Adds text.old text.new (level_text until.now spot.now is.now number) }
{
    text.add(until);
    spot.push(text);
    text.add(is);
    text.add_integer(number);
}

#[tactic(auto, using(lvish_explain::proofs::Adding::adds_then, lvish_explain::proofs::Adding::adds_none))]
fn push_ended(text: &mut Draft, count: usize)
    ensures { Adds text.old text.new (has_ended count) }
{
    if count == 1 {
        text.add(b" task of these pools has ended");
    } else {
        text.add(b" tasks of these pools have ended");
    }
}

#[tactic(auto, using(lvish_explain::proofs::Adding::adds_then, lvish_explain::proofs::Adding::adds_none))]
fn push_pools(text: &mut Draft, running: usize, which: &[u8])
    ensures { Adds text.old text.new (pools_text running which.now) }
{
    text.add(b"until ");
    text.add_number(running);
    push_ended(text, running);
    text.add(which);
}

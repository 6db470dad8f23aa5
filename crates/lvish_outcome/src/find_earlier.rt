//! The earlier step on which an error rests.

ghost use Rattle.std.specs.Prelude.{◌≡◌, IfSome, option_map};
ghost use Rattle.lvish_calculus.specs.Handing.{IsAmong};
ghost use Rattle.lvish_outcome.specs.Rests.{IsPutBy, IsNoPut, Says, RestsOn};

use crate::earlier::Earlier;
use crate::trouble::Trouble;
use lvish_compound::Event;
use lvish_retrace::{Act, Bringer, Story, ToldStep};

/// What was put into the variable at this key first.
#[tactic(auto, using(crate::proofs::Rests::among, crate::proofs::Rests::among_at))]
fn first_at(brought: &[Bringer<Event>], variable: usize, key: i64) -> Option<&Bringer<Event>>
    ensures among { IfSome result (λ b. IsAmong b.now brought.now) }
    ensures variable { IfSome result (λ b. b.now.variable ≡ variable) }
    ensures key { IfSome result (λ b. b.now.event.key ≡ key) }
{
    for place in 0..brought.len() {
        let put = &brought[place];
        if put.variable == variable && put.event.key == key {
            return Some(put);
        }
    }
    None
}

/// What is there already where a task puts something.
pub fn there_of(brought: &[Bringer<Event>], act: Act) -> Option<&Bringer<Event>>
    ensures { IfSome result (λ b. IsAmong b.now brought.now) }
{
    match act {
        Act::Put { variable, event } => first_at(brought, variable, event.key),
        _ => None,
    }
}

/// The number that is there.
pub fn number_of(there: Option<&Bringer<Event>>) -> Option<i64>
    ensures { result ≡ option_map (λ b. b.now.event.number) there.entry }
{
    match there {
        Some(put) => Some(put.event.number),
        None => None,
    }
}

/// The task that put it, and where.
fn put_earlier<'b>(steps: &[ToldStep], put: &'b Bringer<Event>) -> Earlier<'b>
    ensures { IsPutBy put.now result }
{
    if put.step >= steps.len() {
        return Earlier::Nothing;
    }
    Earlier::Put(&put.task, steps[put.step].line, put.step + 1)
}

/// The number of the step, from 0, that froze the variable.
fn freeze_of(told: &Story<'_>, variable: usize) -> Option<usize> {
    for number in 0..told.steps.len() {
        if let Act::Freeze { variable: frozen } = told.steps[number].act {
            if frozen == variable {
                return Some(number);
            }
        }
    }
    None
}

/// The variable that a task concerns, which asks for this.
fn variable_of(act: Act) -> Option<usize> {
    match act {
        Act::Put { variable, .. } => Some(variable),
        Act::Add { variable } => variable,
        _ => None,
    }
}

/// The task that froze what this is put into or added to, and where.
fn freeze_earlier<'b>(told: &'b Story<'_>, act: Act) -> Option<Earlier<'b>>
    ensures { IfSome result IsNoPut }
{
    let number = freeze_of(told, variable_of(act)?)?;
    let step = told.steps.get(number)?;
    let task = told.names.get(step.task)?;
    Some(Earlier::Froze(task, step.line, number.saturating_add(1)))
}

/// The same; nothing where it isn't found.
fn frozen_earlier<'b>(told: &'b Story<'_>, act: Act) -> Earlier<'b>
    ensures { IsNoPut result }
{
    match freeze_earlier(told, act) {
        Some(earlier) => earlier,
        None => Earlier::Nothing,
    }
}

/// The earlier step on which this trouble rests, where this is there already.
pub fn earlier_of<'b>(
    told: &'b Story<'_>,
    act: Act,
    trouble: &Trouble<'_>,
    there: Option<&'b Bringer<Event>>,
) -> Earlier<'b>
    requires among { IfSome there (λ b. IsAmong b.now told.now.brought.items) }
    requires said { Says (option_map (λ b. b.now.event.number) there) trouble.now }
    ensures { RestsOn told.now.brought.items trouble.now result }
{
    match trouble {
        Trouble::Other(_, _, _) => match there {
            Some(put) => put_earlier(told.steps.as_slice(), put),
            None => Earlier::Nothing,
        },
        Trouble::Frozen(_, _) => frozen_earlier(told, act),
        Trouble::Late(_) => frozen_earlier(told, act),
        _ => Earlier::Nothing,
    }
}

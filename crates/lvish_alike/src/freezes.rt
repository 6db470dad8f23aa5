//! Whether the instructions of `main` keep to its freezes.

ghost use Rattle.std.specs.Prelude.{◌≡◌, ◌+◌, ◌-◌, ◌<◌, ◌≤◌, ◌↔◌, IfSome, IfNone, true, Some};
ghost use Rattle.std.specs.List.{slice_get};
ghost use Rattle.lvish_alike.specs.Deciding.{FreezesNone, CallsBefore, WaitsInTime, FreezesOneOf, IsCalledFrom, WaitsFor, Spares, AreSpared, IsFreezeSpared, IsSpared, IsFirstFreeze};
ghost use Rattle.lvish_alike.specs.Parts.{IsWaitedFor};

use crate::given::written_by;
use crate::link::{Link, linked_by};
use crate::sought::frozen_by;
use lvish_code::{Action, Instruction};

/// Whether each freeze stands in no block, names the pools that all freezes of its variable name, and
/// has no write to the variable below it.
pub fn are_spared(own: &[Instruction], pools: &[usize]) -> bool
    ensures { (result ≡ true) ↔ AreSpared own.now pools.now }
{
    for place in 0..own.len() {
        if !is_freeze_spared(&own[place], own, pools, place) {
            return false;
        }
    }
    true
}

/// The same of the instruction at this place.
fn is_freeze_spared(
    instruction: &Instruction,
    own: &[Instruction],
    pools: &[usize],
    place: usize,
) -> bool
    ensures { (result ≡ true) ↔ IsFreezeSpared own.now pools.now place instruction.now }
{
    match instruction {
        Instruction::Ask(Action::Freeze(_, variable, waits, _)) => {
            is_spared(own, pools, place, *variable, waits.as_slice())
        }
        _ => true,
    }
}

/// Whether all instructions keep to the freeze of the variable at this place after these pools.
fn is_spared(
    own: &[Instruction],
    pools: &[usize],
    place: usize,
    variable: usize,
    waits: &[usize],
) -> bool
    ensures { (result ≡ true) ↔ IsSpared own.now pools.now place variable waits.now }
{
    for other in 0..own.len() {
        if !spares(&own[other], other, pools, place, variable, waits) {
            return false;
        }
    }
    true
}

/// Whether the instruction at the place `other` keeps to the freeze.
fn spares(
    instruction: &Instruction,
    other: usize,
    pools: &[usize],
    place: usize,
    variable: usize,
    waits: &[usize],
) -> bool
    ensures { (result ≡ true) ↔ Spares pools.now place variable waits.now other instruction.now }
{
    match instruction {
        Instruction::SkipIfZero(_, count) => stops_before(other, *count, place),
        Instruction::GoOn(count) => stops_before(other, *count, place),
        Instruction::BackUnlessZero(_, count) => stops_behind(other, *count, place),
        Instruction::Ask(Action::Freeze(_, frozen, pools, _)) => {
            *frozen != variable || pools.as_slice() == waits
        }
        _ => other <= place || written_by(instruction, pools) != Some(variable),
    }
}

/// Whether a jump from the place `other` over this many instructions forward doesn't pass the place.
fn stops_before(other: usize, count: usize, place: usize) -> bool
    ensures { (result ≡ true) ↔ (other < place → other + 1 + count ≤ place) }
{
    place <= other || count < place - other
}

/// Whether a jump from the place `other` by this many places back doesn't pass the place.
fn stops_behind(other: usize, count: usize, place: usize) -> bool
    ensures { (result ≡ true) ↔ (place < other → place < other - count) }
{
    other <= place || count < other - place
}

/// Whether no instruction freezes a marked variable.
pub fn freezes_none(own: &[Instruction], marks: &[bool]) -> bool
    ensures { (result ≡ true) ↔ FreezesNone own.now marks.now }
{
    first_freeze(own, marks).is_none()
}

/// Whether each call of the routine stands above all freezes of marked variables.
pub fn calls_before(own: &[Instruction], marks: &[bool], routine: usize) -> bool
    ensures { (result ≡ true) ↔ CallsBefore own.now marks.now routine }
{
    match first_freeze(own, marks) {
        Some(place) => !is_called_from(own, place, routine),
        None => true,
    }
}

/// Whether each freeze of a marked variable, or one above it, waits for the pool.
pub fn waits_in_time(own: &[Instruction], marks: &[bool], pool: usize) -> bool
    ensures { (result ≡ true) ↔ WaitsInTime own.now marks.now pool }
{
    match first_freeze(own, marks) {
        Some(place) => is_waited_for(own, place, pool),
        None => true,
    }
}

/// The first place of a freeze of a marked variable.
fn first_freeze(own: &[Instruction], marks: &[bool]) -> Option<usize>
    ensures found { IfSome result (λ place. IsFirstFreeze own.now marks.now place) }
    ensures none { IfNone result (FreezesNone own.now marks.now) }
{
    for place in 0..own.len() {
        if freezes_marked(&own[place], marks) {
            return Some(place);
        }
    }
    None
}

/// Whether the instruction freezes a marked variable.
fn freezes_marked(instruction: &Instruction, marks: &[bool]) -> bool
    ensures { (result ≡ true) ↔ FreezesOneOf marks.now instruction.now }
{
    match frozen_by(instruction) {
        Some(variable) => is_set(marks, variable),
        None => false,
    }
}

/// Whether there is a mark at the place, and it is set.
fn is_set(marks: &[bool], place: usize) -> bool
    ensures { (result ≡ true) ↔ (slice_get marks.now place ≡ Some true) }
{
    match marks.get(place) {
        Some(mark) => *mark,
        None => false,
    }
}

/// Whether the routine is called at the place or below it.
fn is_called_from(own: &[Instruction], place: usize, routine: usize) -> bool
    ensures { (result ≡ true) ↔ IsCalledFrom own.now place routine }
{
    for other in place..own.len() {
        if linked_by(&own[other], Link::Calls) == Some(routine) {
            return true;
        }
    }
    false
}

/// Whether a freeze at the place or above it waits for the pool.
fn is_waited_for(own: &[Instruction], place: usize, pool: usize) -> bool
    ensures { (result ≡ true) ↔ IsWaitedFor own.now place pool }
{
    for other in 0..own.len() {
        if waits_for(&own[other], pool) {
            return other <= place;
        }
    }
    false
}

/// Whether the instruction is a freeze that waits for the pool.
fn waits_for(instruction: &Instruction, pool: usize) -> bool
    ensures { (result ≡ true) ↔ WaitsFor instruction.now pool }
{
    match instruction {
        Instruction::Ask(Action::Freeze(_, _, pools, _)) => pools.as_slice().contains(&pool),
        _ => false,
    }
}

ghost use Rattle.std.specs.Prelude.{◌≡◌, IfOk, length, pos};
ghost use Rattle.lvish_compound.specs.StateReads.{state_of};
ghost use Rattle.lvish_compound.specs.States.{side, amount};
ghost use Rattle.lvish_task.specs.States.{put_at, read_at, events_below};

use lvish_compound::{AmountFault, Any, AnyRead, Event, Kind, Place, Test};
use lvish_lattice::Lattice;
use std::alloc::{AllocError, Global};

/// The state that a number stands for, of a kind that a side can have.
fn state_of(alloc: Global, kind: Kind, n: i64) -> Result<Option<Any>, AllocError>
    ensures { IfOk result (λ s. s ≡ state_of kind n) }
{
    match kind {
        Kind::Cell => Ok(Some(Any::cell(n))),
        Kind::Set => Ok(Some(Any::set(alloc, n)?)),
        Kind::Max => match Any::counter(n) {
            Ok(state) => Ok(Some(state)),
            Err(_) => Ok(None),
        },
        Kind::Map => Ok(None),
        Kind::Tally => Ok(None),
    }
}

/// The state as a side of a pair, `None` where it can't be one.
fn aside(number: u8, state: Any) -> Option<Any>
    ensures { result ≡ side number state }
{
    match Any::side(number, state) {
        Ok(state) => Some(state),
        Err(_) => None,
    }
}

/// The tally of one key and its amount, `None` where no amount is this number.
fn amount(alloc: Global, key: i64, n: i64) -> Result<Option<Any>, AllocError>
    ensures { IfOk result (λ s. s ≡ amount key n) }
{
    match Any::amount(alloc, key, n) {
        Ok(state) => Ok(Some(state)),
        Err(AmountFault::Range) => Ok(None),
        Err(AmountFault::Memory) => Err(AllocError),
    }
}

/// What a put of a number joins at a place, `None` where no counter and no amount is this number. A
/// total is only read.
#[tactic(auto, unfolding(crate::specs::States::put_at))]
pub fn put_at(alloc: Global, place: Place, n: i64) -> Result<Option<Any>, AllocError>
    ensures { IfOk result (λ s. s ≡ put_at place n) }
{
    match place {
        Place::Cell => state_of(alloc, Kind::Cell, n),
        Place::Set => state_of(alloc, Kind::Set, n),
        Place::Max => state_of(alloc, Kind::Max, n),
        Place::Key(key) => Ok(Some(Any::entry(alloc, key, n)?)),
        Place::Side(number, kind) => match state_of(alloc, kind, n)? {
            Some(state) => Ok(aside(number, state)),
            None => Ok(None),
        },
        Place::Amount(key) => amount(alloc, key, n),
        Place::Total => Ok(None),
    }
}

/// The read of a place by a test, `None` where a number in it is none of what is read there.
pub fn read_at(place: Place, test: Test) -> Option<AnyRead>
    ensures { result ≡ read_at place test }
{
    match AnyRead::new(place, test) {
        Ok(read) => Some(read),
        Err(_) => None,
    }
}

/// How many events there are below a state.
///
/// # Errors
///
/// Where there are more than a number of a script can say.
#[tactic(auto, unfolding(crate::specs::States::events_below))]
pub fn count_below(state: &Any) -> Result<i64, AllocError>
    ensures { IfOk result (λ n. n ≡ pos (length (events_below state.now))) }
{
    let Some(count) = state.event_count() else {
        return Err(AllocError);
    };
    i64::try_from(count).map_err(|_| AllocError)
}

/// The events below a state, ascending.
#[tactic(auto, unfolding(crate::specs::States::events_below))]
pub fn events_below(alloc: Global, state: &Any) -> Result<Vec<Event>, AllocError>
    ensures { IfOk result (λ v. v.items ≡ events_below state.now) }
{
    state.events(alloc)
}

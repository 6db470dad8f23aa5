//! How a worker looks for work on the deques.

ghost use Rattle.std.specs.Prelude.{◌⊎◌, ◌≤◌, ◌<◌, length};
ghost use Rattle.lvish_deal.specs.Place.{IsSameSeat};

use lvish_deal::{Seat, Steal};

/// What is at the front of the first of these deques that has something.
fn steal<T>(seat: &mut Seat<T>, first: usize, end: usize) -> Option<T>
    requires among { end ≤ length seat.old.deal }
    requires others { (end ≤ seat.old.number) ⊎ (seat.old.number < first) }
    ensures { IsSameSeat seat.old seat.new }
{
    for from in first..end {
        if let Steal::Taken(item) = seat.steal(from) {
            return Some(item);
        }
    }
    None
}

/// The item at the front of its own deque, or of the first of the others that has some, from its own
/// number on.
pub fn find<T>(seat: &mut Seat<T>) -> Option<T>
    ensures { IsSameSeat seat.old seat.new }
{
    if let Some(item) = seat.pop() {
        return Some(item);
    }
    let own = seat.number();
    let seats = seat.seats();
    match steal(seat, own + 1, seats) {
        Some(item) => Some(item),
        None => steal(seat, 0, own),
    }
}

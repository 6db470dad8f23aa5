// What a seat has of its own deque and of the others.
ghost use Rattle.std.specs.Prelude.{◌≡◌, []};
ghost use Rattle.crossbeam_deque.specs.Handles.{view, IsPassOf, stealer_deque, stealer_flavor};
ghost use Rattle.lvish_deal.specs.Rule.{log};

use crate::log::Log;
use crate::rule::InOrder;
use crossbeam_deque::{Pass, Stealer, Worker};
use std::alloc::Global;

// The owner's end of a deque.
pub type Own<T> = Worker<T, Global, Log<T>, InOrder>;

// The thieves' end of a deque.
pub type Thief<T> = Stealer<T, Global, Log<T>, InOrder>;

// What a seat uses to take from one of the deques: a handle of the deque, and a pass that knows
// what this seat took there.
#[derive(Drop)]
pub struct Reach<T> {
    pub stealer: Thief<T>,
    pub pass: Pass<T, Log<T>>,
    ghost fits: { IsPassOf (stealer_deque stealer) pass },
    ghost flavor: { stealer_flavor stealer ≡ 0 },
    ghost knows: { view pass ≡ log (view pass).parts [] (view pass).got [] },
}

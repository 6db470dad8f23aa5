//! Requests that take no memory, in straight code.

ghost use Rattle.std.specs.Prelude.{◌≡◌, IfSome, Some};
ghost use Rattle.lvish_task.specs.Run.{target_place, wanted_test};
ghost use Rattle.lvish_task.specs.States.{put_at, read_at};

use crate::values::Values;
use lvish_code::{Target, Wanted};
use lvish_compound::{Any, AnyRead, Place, Test};
use lvish_syntax::SimpleKind;
use std::alloc::Global;

/// The state that a put of a number joins to a whole variable or an entry.
#[inline(always)]
pub fn state_at_once(alloc: Global, values: &Values, target: Target, n: i64) -> Option<Any>
    ensures { IfSome result (λ s. put_at (target_place values.now target) n ≡ Some s) }
{
    match target {
        Target::Whole(SimpleKind::Cell) => Some(Any::cell(n)),
        Target::Whole(SimpleKind::Set) => Any::set(alloc, n).ok(),
        Target::Whole(SimpleKind::Max) => Any::counter(n).ok(),
        Target::Entry(key) => Any::entry(alloc, values.operand(key), n).ok(),
        _ => None,
    }
}

/// What a get waits for that waits for no list of numbers.
#[inline(always)]
fn test_at_once(values: &Values, wanted: &Wanted) -> Option<Test>
    ensures { IfSome result (λ t. wanted_test values.now wanted.now ≡ t) }
{
    match wanted {
        Wanted::Any => Some(Test::Any),
        Wanted::At(operand) => Some(Test::At(values.operand(*operand))),
        Wanted::In(_) => None,
    }
}

/// The read of a get of a whole cell or set or of an entry, that waits for no list of numbers.
#[inline(always)]
pub fn read_at_once(values: &Values, target: Target, wanted: &Wanted) -> Option<AnyRead>
    ensures { IfSome result (λ r. read_at (target_place values.now target) (wanted_test values.now wanted.now) ≡ Some r) }
{
    let test = test_at_once(values, wanted)?;
    match target {
        Target::Whole(SimpleKind::Cell) => {
            let place = Place::Cell;
            Some(AnyRead { place, test })
        }
        Target::Whole(SimpleKind::Set) => {
            let place = Place::Set;
            Some(AnyRead { place, test })
        }
        Target::Entry(key) => {
            let place = Place::Key(values.operand(key));
            Some(AnyRead { place, test })
        }
        _ => None,
    }
}

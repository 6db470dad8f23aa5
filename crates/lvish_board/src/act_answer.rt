ghost use Rattle.std.specs.Prelude.{◌≡◌, Some, IsSome};
ghost use Rattle.lvish_board.specs.Acts.{with_work};

use crate::act_kind::ActKind;
use crate::board_brand::BoardBrand;
use crate::step_work::StepWork;
use crate::work::Work;
use lvish_calculus::Program;

/// What came of work that a board was given; where several hold, the first.
#[derive(Drop)]
pub enum ActAnswer<P: Program, B: BoardBrand<P>> {
    /// The board is over.
    Over,
    /// The task isn't there, has ended or is at another local state; or there is no such handler.
    Stale,
    /// The task is blocked: the board parks it until a step wakes it. Or the handler has nothing
    /// left.
    Parked,
    /// A growth was refused, or the trace has no room for so large a number of a worker or a task.
    /// Nothing has changed, and this is the work that was given.
    Memory(Work<P, B>),
    /// A step was made, and left this work.
    Next(StepWork<P, B>),
    /// A step was made, by which the task has ended or met an error, and left this work.
    Gone(StepWork<P, B>),
}

impl<P: Program, B: BoardBrand<P>> ActAnswer<P, B> {
    /// What came of the work, with it where memory was refused, and with the work that a step left.
    pub(crate) fn of(
        came: ActKind,
        work: Option<Work<P, B>>,
        left: StepWork<P, B>,
    ) -> ActAnswer<P, B>
        requires back { came ≡ ActKind.Memory → IsSome work }
        ensures { (w : _) → (came ≡ ActKind.Memory → work ≡ Some w) → result ≡ with_work came w left }
    {
        match came {
            ActKind::Over => ActAnswer::Over,
            ActKind::Stale => ActAnswer::Stale,
            ActKind::Parked => ActAnswer::Parked,
            ActKind::Memory => match work {
                Some(work) => ActAnswer::Memory(work),
                None => unreachable!(),
            },
            ActKind::Next => ActAnswer::Next(left),
            ActKind::Gone => ActAnswer::Gone(left),
        }
    }
}

ghost use Rattle.std.specs.Prelude.{◌≡◌, ◌<◌, ◌-◌, ◌∷◌, [], ◌+◌, ◌^◌, List, IfOk, OnOk, map};
ghost use Rattle.lvish_task.specs.Run.{Asks, operand_value, callee, started, called, placed, action_turn, instruction_turn, instruction, flat_turn, frame_turn, requested, moved};
ghost use Rattle.lvish_compound.specs.declared.event.Event.{Event};

use crate::evaluate::{place_of, test_of, values_of};
use crate::frame::Frame;
use crate::frames::Frames;
use crate::in_place::InPlace;
use crate::limits::{MOST_BELOW, TURNS};
use crate::local::Local;
use crate::remaining::Remaining;
use crate::script_code::ScriptCode;
use crate::stack::Stack;
use crate::states::{put_at, read_at};
use crate::values::Values;
use lvish_calculus::{ErrorKind, Pools, Request};
use lvish_code::{Action, Instruction, Operand};
use lvish_compound::{Any, AnyRead, Event};
use std::alloc::{AllocError, Global};
use std::mem;

/// What a task asks for.
pub type Ask = Request<Any, AnyRead, Local>;

impl Stack {
    /// Goes into a frame above the others, as a local statement.
    fn enter(&mut self, alloc: Global, callee: Frame) -> Result<(), AllocError>
        requires { 0 < self.old.left }
        ensures { OnOk result (self.new ≡ record { left = self.old.left - 1; top = callee; below = self.old.top ∷ self.old.below }) }
    {
        let caller = mem::replace(&mut self.top, callee);
        self.below.push(alloc, caller)?;
        self.left -= 1;
        Ok(())
    }
}

impl ScriptCode {
    /// The frame of a procedure that begins on the arguments, if there is one that takes them.
    #[inline(always)]
    fn callee(
        &self,
        alloc: Global,
        procedure: usize,
        arguments: Values,
    ) -> Result<Option<Frame>, AllocError>
        ensures { IfOk result (λ f. f ≡ callee self.now.flat procedure arguments) }
    {
        match self.routine(procedure) {
            Some(routine) if arguments.len() == routine.parameters => Ok(Some(Frame {
                place: 0,
                procedure,
                values: arguments.filled(alloc, routine.locals)?,
                each: 0,
                events: Remaining::new(),
            })),
            _ => Ok(None),
        }
    }

    /// A task that begins in a procedure on the arguments; a local state that doesn't fit, if there
    /// is no procedure that takes them.
    #[inline(always)]
    pub(crate) fn begin(
        &self,
        alloc: Global,
        procedure: usize,
        arguments: Values,
    ) -> Result<Local, AllocError>
        ensures { IfOk result (λ l. l ≡ started self.now.flat procedure arguments) }
    {
        let top = match self.callee(alloc, procedure, arguments)? {
            Some(callee) => callee,
            None => Frame {
                place: 0,
                procedure: self.flat.routines().len(),
                values: Values::few(InPlace::new()),
                each: 0,
                events: Remaining::new(),
            },
        };
        let below = Frames::new();
        Local::new(
            alloc,
            Stack {
                left: TURNS,
                top,
                below,
            },
        )
    }

    /// The task that begins in a procedure on the values of operands.
    ///
    /// It isn't inlined, so that other requests don't pay for its values.
    #[inline(never)]
    fn forked(
        &self,
        alloc: Global,
        values: &Values,
        procedure: usize,
        operands: &[Operand],
    ) -> Result<Local, AllocError>
        ensures { IfOk result (λ l. l ≡ started self.now.flat procedure (map (operand_value values.now) operands.now)) }
    {
        let arguments = values_of(alloc, values, operands)?;
        self.begin(alloc, procedure, arguments)
    }

    /// What an action asks for, in place.
    #[inline(never)]
    pub(crate) fn ask_for(
        &self,
        alloc: Global,
        values: &Values,
        action: &Action,
        into: &mut Ask,
    ) -> Result<(), AllocError>
        ensures { OnOk result (Asks into.new ≡ action_turn self.now.flat values.now action.now) }
    {
        *into = self.request(alloc, values, action)?;
        Ok(())
    }

    /// What an action asks for.
    #[inline(always)]
    pub(crate) fn request(
        &self,
        alloc: Global,
        values: &Values,
        action: &Action,
    ) -> Result<Ask, AllocError>
        ensures { IfOk result (λ r. Asks r ≡ action_turn self.now.flat values.now action.now) }
    {
        Ok(match action {
            Action::Put(variable, target, operand) => {
                let place = place_of(values, *target);
                match put_at(alloc, place, values.operand(*operand))? {
                    Some(state) => Request::Put(*variable, state),
                    None => Request::Fault(ErrorKind::Range),
                }
            }
            Action::Get(_, variable, target, wanted) => {
                let test = test_of(alloc, values, wanted)?;
                match read_at(place_of(values, *target), test) {
                    Some(read) => Request::Get(*variable, read),
                    None => Request::Fault(ErrorKind::Range),
                }
            }
            Action::Fork(procedure, operands) => {
                Request::Fork(self.forked(alloc, values, *procedure, operands.as_slice())?)
            }
            Action::Handle(pool, procedure) => Request::Add(*pool, *procedure),
            Action::Freeze(_, variable, pools, _) => {
                let pools = Vec::from_slice(alloc, pools.as_slice())?;
                Request::Freeze(*variable, Pools::from(pools))
            }
        })
    }

    /// A call, before the next instruction.
    pub(crate) fn call(
        &self,
        alloc: Global,
        local: &mut Stack,
        procedure: usize,
        operands: &[Operand],
    ) -> Result<Option<Ask>, AllocError>
        requires left { 0 < local.old.left }
        requires within { local.old.top.place + 1 < 2 ^ 64 }
        ensures asks { IfOk result (λ r. r ≡ requested (called self.now.flat procedure (map (operand_value local.old.top.values) operands.now) (placed local.old.top (local.old.top.place + 1)) local.old.below)) }
        ensures moves { IfOk result (λ _. local.new ≡ moved local.old (called self.now.flat procedure (map (operand_value local.old.top.values) operands.now) (placed local.old.top (local.old.top.place + 1)) local.old.below)) }
    {
        if local.below.len() >= MOST_BELOW {
            return Ok(Some(Request::Fault(ErrorKind::Deep)));
        }
        let arguments = values_of(alloc, &local.top.values, operands)?;
        match self.callee(alloc, procedure, arguments)? {
            None => Ok(Some(Request::End)),
            Some(callee) => {
                local.top.place += 1;
                local.enter(alloc, callee)?;
                Ok(None)
            }
        }
    }

    /// The call that an `each` makes on its next event.
    pub(crate) fn call_on_event(
        &self,
        alloc: Global,
        local: &mut Stack,
        event: Event,
    ) -> Result<Option<Ask>, AllocError>
        requires left { 0 < local.old.left }
        requires first { (more : List Event) × (local.old.top.events ≡ event ∷ more) }
        ensures asks { IfOk result (λ r. r ≡ requested (flat_turn self.now.flat local.old)) }
        ensures moves { IfOk result (λ _. local.new ≡ moved local.old (flat_turn self.now.flat local.old)) }
    {
        if local.below.len() >= MOST_BELOW {
            return Ok(Some(Request::Fault(ErrorKind::Deep)));
        }
        let arguments = Values::few(InPlace::two(event.key, event.number));
        match self.callee(alloc, local.top.each, arguments)? {
            None => Ok(Some(Request::End)),
            Some(callee) => {
                local.top.events.take();
                local.enter(alloc, callee)?;
                Ok(None)
            }
        }
    }
}

ghost use Rattle.std.specs.Prelude.{◌≡◌, ◌<◌, ◌+◌, ◌^◌, true, IfOk, OnOk};
ghost use Rattle.lvish_calculus.specs.declared.request.Request.TheVariants.{End};
ghost use Rattle.lvish_task.specs.Heard.{said};
ghost use Rattle.lvish_task.specs.Run.{AsksBy, answered, asked, resumed, resumed_top, run, stack_fits};

use crate::at_once::{read_at_once, state_at_once};
use crate::frame::Frame;
use crate::heard::Heard;
use crate::limits::TURNS;
use crate::local::Local;
use crate::remaining::Remaining;
use crate::script_code::ScriptCode;
use crate::stack::Stack;
use crate::states::{count_below, events_below};
use lvish_calculus::{Asks, Request};
use lvish_code::{Action, Instruction};
use lvish_compound::{Any, AnyRead};
use std::alloc::{AllocError, Global};

impl Frame {
    /// Goes on after the reply to an action.
    fn answer(&mut self, alloc: Global, action: &Action, reply: Heard<'_>) -> Result<(), AllocError>
        requires { self.old.place + 1 < 2 ^ 64 }
        ensures { OnOk result (self.new ≡ answered self.old action.now (said reply.entry)) }
    {
        match (action, reply) {
            (Action::Get(local, _, _, _), Heard::Answer(n)) => {
                self.values.set(alloc, *local, n)?;
            }
            (Action::Freeze(local, _, _, None), Heard::Content(state)) => {
                self.values.set(alloc, *local, count_below(state)?)?;
            }
            (Action::Freeze(local, _, _, Some(procedure)), Heard::Content(state)) => {
                let events = events_below(alloc, state)?;
                self.values.set(alloc, *local, events.len() as i64)?;
                self.each = *procedure;
                self.events = Remaining::of(alloc, events)?;
            }
            _ => {}
        }
        self.place += 1;
        Ok(())
    }
}

/// The end of a task, in this local state.
fn ended(at: Local) -> Result<Asks<Any, AnyRead, Local>, AllocError>
    ensures request { IfOk result (λ a. a.request ≡ End) }
    ensures at { IfOk result (λ a. a.at ≡ at) }
{
    Ok(Asks {
        request: Request::End,
        at,
    })
}

impl ScriptCode {
    /// The next request, and the local state in which it is made: in the memory of `spare`, where no
    /// other local state shares that.
    #[inline(always)]
    pub(crate) fn asked(
        &self,
        alloc: Global,
        local: &Local,
        spare: Option<Local>,
    ) -> Result<Asks<Any, AnyRead, Local>, AllocError>
        ensures request { IfOk result (λ a. a.request ≡ (asked self.now.flat local.now).request) }
        ensures at { IfOk result (λ a. a.at ≡ (asked self.now.flat local.now).at) }
    {
        if !self.fits(local) {
            return ended(local.copy()?);
        }
        let mut at = local.copy_into(alloc, spare)?;
        self.stride_within(&mut at);
        self.asked_at(alloc, at)
    }

    /// Takes local statements, as [`stride`](ScriptCode::stride) does, where no other local state
    /// shares this one. What the task asks for next stays the same, whether any are taken or none.
    #[inline(always)]
    fn stride_within(&self, at: &mut Local)
        ensures { run self.now.flat at.new.left at.new.top at.new.below ≡ run self.now.flat at.old.left at.old.top at.old.below }
    {
        if let Some(stack) = at.stack_mut() {
            self.stride(stack);
        }
    }

    /// What a task asks from this local state on, which may be its own answer.
    #[inline(always)]
    fn asked_at(&self, alloc: Global, at: Local) -> Result<Asks<Any, AnyRead, Local>, AllocError>
        ensures request { IfOk result (λ a. a.request ≡ (run self.now.flat at.left at.top at.below).request) }
        ensures at { IfOk result (λ a. a.at ≡ (run self.now.flat at.left at.top at.below).at) }
    {
        match self.here(at.stack()) {
            Some(instruction) => self.asked_by(alloc, at, instruction),
            None => self.asked_further(alloc, at),
        }
    }

    /// What a task asks by the instruction at its place.
    #[inline(never)]
    fn asked_by(
        &self,
        alloc: Global,
        at: Local,
        instruction: &Instruction,
    ) -> Result<Asks<Any, AnyRead, Local>, AllocError>
        requires asks { AsksBy self.now.flat at instruction.now }
        ensures request { IfOk result (λ a. a.request ≡ (run self.now.flat at.left at.top at.below).request) }
        ensures at { IfOk result (λ a. a.at ≡ (run self.now.flat at.left at.top at.below).at) }
    {
        match instruction {
            Instruction::Ask(action) => {
                let values = &at.stack().top.values;
                match action {
                    Action::Put(variable, target, operand) => {
                        let n = values.operand(*operand);
                        if let Some(state) = state_at_once(alloc, values, *target, n) {
                            let request = Request::Put(*variable, state);
                            return Ok(Asks { request, at });
                        }
                    }
                    Action::Get(_, variable, target, wanted) => {
                        if let Some(read) = read_at_once(values, *target, wanted) {
                            let request = Request::Get(*variable, read);
                            return Ok(Asks { request, at });
                        }
                    }
                    _ => {}
                }
                let mut request = Request::End;
                self.ask_for(alloc, values, action, &mut request)?;
                Ok(Asks { request, at })
            }
            _ => ended(at),
        }
    }

    /// What a task asks after more local statements, calls among them.
    ///
    /// It isn't inlined, since most requests come before the next call.
    #[inline(never)]
    fn asked_further(
        &self,
        alloc: Global,
        mut at: Local,
    ) -> Result<Asks<Any, AnyRead, Local>, AllocError>
        ensures request { IfOk result (λ a. a.request ≡ (run self.now.flat at.left at.top at.below).request) }
        ensures at { IfOk result (λ a. a.at ≡ (run self.now.flat at.left at.top at.below).at) }
    {
        match at.stack_mut() {
            Some(stack) => {
                let request = self.run(alloc, stack)?;
                Ok(Asks { request, at })
            }
            None => self.asked_beside(alloc, &at),
        }
    }

    /// The same, of a local state that others share, which stays as it is.
    fn asked_beside(
        &self,
        alloc: Global,
        at: &Local,
    ) -> Result<Asks<Any, AnyRead, Local>, AllocError>
        ensures request { IfOk result (λ a. a.request ≡ (run self.now.flat at.now.left at.now.top at.now.below).request) }
        ensures at { IfOk result (λ a. a.at ≡ (run self.now.flat at.now.left at.now.top at.now.below).at) }
    {
        let mut stack = at.stack().copy(alloc)?;
        let request = self.run(alloc, &mut stack)?;
        let at = Local::new(alloc, stack)?;
        Ok(Asks { request, at })
    }

    /// The local state after the reply to the request that `at` makes: in the memory of `at`, where
    /// no other local state shares that.
    pub(crate) fn resumed(
        &self,
        alloc: Global,
        mut at: Local,
        reply: Heard<'_>,
    ) -> Result<Local, AllocError>
        ensures { IfOk result (λ l. l ≡ resumed self.now.flat at (said reply.entry)) }
    {
        if !self.fits(&at) {
            return Ok(at);
        }
        match at.stack_mut() {
            Some(stack) => {
                let left = stack.left;
                self.go_on(alloc, &mut stack.top, left, reply)?;
                stack.left = TURNS;
                Ok(at)
            }
            None => self.resumed_beside(alloc, &at, reply),
        }
    }

    /// The same, of a local state that others share, which stays as it is.
    ///
    /// It isn't inlined, since a step has the local state in which it is made to itself.
    #[inline(never)]
    fn resumed_beside(
        &self,
        alloc: Global,
        at: &Local,
        reply: Heard<'_>,
    ) -> Result<Local, AllocError>
        requires { stack_fits self.now.flat at.now ≡ true }
        ensures { IfOk result (λ l. l ≡ resumed self.now.flat at.now (said reply.entry)) }
    {
        let stack = at.stack();
        let mut next = stack.copy(alloc)?;
        self.go_on(alloc, &mut next.top, stack.left, reply)?;
        next.left = TURNS;
        Local::new(alloc, next)
    }

    /// Goes on after the reply, in the innermost frame. Where no local statement is left, the
    /// request is a pause, and the same follows after it as before it.
    fn go_on(
        &self,
        alloc: Global,
        frame: &mut Frame,
        left: usize,
        reply: Heard<'_>,
    ) -> Result<(), AllocError>
        ensures { OnOk result (frame.new ≡ resumed_top self.now.flat frame.old (said reply.entry) left) }
    {
        if left == 0 {
            return Ok(());
        }
        match self.instruction(frame) {
            Some(Instruction::Ask(action)) => frame.answer(alloc, action, reply),
            _ => Ok(()),
        }
    }
}

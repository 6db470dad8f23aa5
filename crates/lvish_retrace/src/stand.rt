//! Where a task is, followed from request to request.

use crate::act::Act;
use crate::frame::ToldFrame;
use crate::values::{place_of, value_of, values_of, wanted_of};
use lvish_code::{Action, Code, Instruction};
use lvish_compound::{Event, Kind, Place};
use std::alloc::{AllocError, Global};

/// The most frames of a task.
const MOST_FRAMES: usize = 64;

/// The frames of a task, the outermost first.
pub struct Stand {
    pub frames: Vec<ToldFrame>,
}

// Written out, so that it is proved once, and not at each exit of a function that owns one.
impl Drop for Stand {
    fn drop(self) {
        let Stand { frames: _ } = self;
    }
}

impl Stand {
    /// A task that begins in a procedure on these arguments.
    pub fn begun(
        alloc: Global,
        code: &Code,
        procedure: usize,
        arguments: Vec<i64>,
    ) -> Result<Stand, AllocError> {
        let mut frames = Vec::new(alloc);
        frames.push(ToldFrame::begun(alloc, code, procedure, arguments, None)?)?;
        Ok(Stand { frames })
    }

    /// Out of frames in which nothing follows, and past jumps.
    fn settle(&mut self, code: &Code) {
        for _ in 0..self.frames.len() {
            let few = self.frames.len() <= 1;
            let Some(top) = self.frames.last_mut() else {
                return;
            };
            top.land(code);
            if few || !top.is_over(code) {
                return;
            }
            self.frames.pop();
        }
    }

    /// One local statement.
    fn turn(&mut self, alloc: Global, code: &Code) -> Result<(), AllocError> {
        self.settle(code);
        let is_full = self.frames.len() >= MOST_FRAMES;
        let Some(top) = self.frames.last_mut() else {
            return Ok(());
        };
        // (a call without a frame goes wrong, and the task stays there)
        if is_full && top.is_at_call(code) {
            return Ok(());
        }
        if let Some(callee) = top.turn(alloc, code)? {
            self.frames.push(callee)?;
        }
        Ok(())
    }

    /// So many local statements, up to what the task asks then.
    pub fn advance(
        &mut self,
        alloc: Global,
        code: &Code,
        statements: usize,
    ) -> Result<(), AllocError> {
        for _ in 0..statements {
            self.turn(alloc, code)?;
        }
        self.settle(code);
        Ok(())
    }

    /// The action by which it asks, and the values of the locals.
    pub fn action<'s, 'c>(&'s self, code: &'c Code) -> Option<(&'c Action, &'s [i64])> {
        let top = self.frames.last()?;
        match top.instruction(code)? {
            Instruction::Ask(action) => Some((action, top.values.as_slice())),
            _ => None,
        }
    }
}

/// The event of a number at a place.
pub fn event_at(place: Place, number: i64) -> Event {
    let (key, kind) = match place {
        Place::Cell => (0, Kind::Cell),
        Place::Set => (0, Kind::Set),
        Place::Max => (0, Kind::Max),
        Place::Key(key) => (key, Kind::Map),
        Place::Amount(key) => (key, Kind::Tally),
        Place::Total => (0, Kind::Tally),
        Place::Side(side, kind) => (side as i64, kind),
    };
    Event { key, kind, number }
}

/// What an action asks for, where a fork makes the task of this index and a get has this answer.
fn act_of(code: &Code, action: &Action, values: &[i64], child: usize, answer: Option<i64>) -> Act {
    match action {
        Action::Put(variable, target, operand) => Act::Put {
            variable: *variable,
            event: event_at(place_of(values, *target), value_of(values, *operand)),
        },
        Action::Get(_, variable, target, wanted) => Act::Get {
            variable: *variable,
            place: place_of(values, *target),
            wanted: wanted_of(values, wanted),
            answer,
        },
        Action::Fork(_, _) => Act::Fork { child },
        Action::Handle(pool, _) => Act::Add {
            variable: code.pools().get(*pool).copied(),
        },
        Action::Freeze(_, variable, _, _) => Act::Freeze {
            variable: *variable,
        },
    }
}

impl Stand {
    /// What it asks for, where it stands at an action; a fork makes the task of this index, and a get has
    /// this answer.
    pub fn act(&self, code: &Code, child: usize, answer: Option<i64>) -> Act {
        match self.action(code) {
            Some((action, values)) => act_of(code, action, values, child, answer),
            None => Act::Pause,
        }
    }

    /// The task that a fork starts.
    pub fn forked(&self, alloc: Global, code: &Code) -> Result<Option<Stand>, AllocError> {
        let Some((Action::Fork(procedure, operands), values)) = self.action(code) else {
            return Ok(None);
        };
        let arguments = values_of(alloc, values, operands.as_slice())?;
        Ok(Some(Stand::begun(alloc, code, *procedure, arguments)?))
    }

    /// Behind a get with this answer.
    pub fn answered(&mut self, code: &Code, answer: i64) {
        let Some((Action::Get(local, _, _, _), _)) = self.action(code) else {
            return;
        };
        self.resume(*local, answer);
    }

    /// Behind a freeze of a variable with these events.
    pub fn frozen(&mut self, code: &Code, events: Vec<Event>) {
        let Some((Action::Freeze(local, variable, _, each), _)) = self.action(code) else {
            return;
        };
        self.resume(*local, events.len() as i64);
        if let Some(procedure) = *each {
            self.call_each(*variable, procedure, events);
        }
    }

    /// The procedure is called on each of these events.
    fn call_each(&mut self, variable: usize, procedure: usize, events: Vec<Event>) {
        let mut events = events;
        events.reverse();
        if let Some(top) = self.frames.last_mut() {
            top.variable = variable;
            top.each = procedure;
            top.events = events;
        }
    }

    /// To the next instruction, where the local takes the value.
    fn resume(&mut self, local: usize, value: i64) {
        if let Some(top) = self.frames.last_mut() {
            top.set(local, value);
            top.next();
        }
    }

    /// Behind another action.
    pub fn done(&mut self) {
        if let Some(top) = self.frames.last_mut() {
            top.next();
        }
    }

    /// The task has ended.
    pub fn end(&mut self) {
        self.frames.clear();
    }
}

//! The tasks of a run, followed step by step.

ghost use Rattle.std.specs.Prelude.{◌≡◌, IfOk};

use crate::act::Act;
use crate::begin::Begin;
use crate::frame::{line_in, standing_in};
use crate::make::events_in;
use crate::procedure::ToldProcedure;
use crate::stand::Stand;
use crate::standing::Standing;
use crate::told_step::ToldStep;
use lvish_code::Code;
use lvish_compound::{Any, Event};
use lvish_core::Stepped;
use lvish_variable::Variable;
use std::alloc::{AllocError, Global};

/// The tasks by their indices: how each began, and where it stands.
pub struct Crew<'c, 't> {
    pub code: &'c Code,
    pub procedures: Vec<ToldProcedure<'t>>,
    pub begins: Vec<Begin>,
    pub stands: Vec<Stand>,
}

// Written out, so that it is proved once, and not at each exit of a function that owns one.
impl<'c, 't> Drop for Crew<'c, 't> {
    fn drop(self) {
        let Crew {
            code: _,
            procedures: _,
            begins: _,
            stands: _,
        } = self;
    }
}

impl<'c, 't> Crew<'c, 't> {
    /// `main` alone.
    pub fn new(
        alloc: Global,
        code: &'c Code,
        procedures: Vec<ToldProcedure<'t>>,
    ) -> Result<Crew<'c, 't>, AllocError> {
        let mut crew = Crew {
            code,
            procedures,
            begins: Vec::new(alloc),
            stands: Vec::new(alloc),
        };
        let main = Stand::begun(alloc, code, code.main(), Vec::new(alloc))?;
        crew.start(Begin::Main, main)?;
        Ok(crew)
    }

    /// The procedures, and how each task began.
    pub fn into_parts(self) -> (Vec<ToldProcedure<'t>>, Vec<Begin>) {
        let Crew {
            code: _,
            procedures,
            begins,
            stands: _,
        } = self;
        (procedures, begins)
    }

    /// One more task.
    fn start(&mut self, begin: Begin, stand: Stand) -> Result<(), AllocError> {
        self.begins.push(begin)?;
        self.stands.push(stand)?;
        Ok(())
    }

    /// What the task of this index asks for, and where: before its step, and after so many local statements
    /// more. What it asks for may be known already, and the answer of a get.
    pub fn asks(
        &mut self,
        alloc: Global,
        task: usize,
        statements: usize,
        known: Option<Act>,
        answer: Option<i64>,
    ) -> Result<ToldStep, AllocError>
        ensures { IfOk result (λ t. t.task ≡ task) }
    {
        let child = self.stands.len();
        let Some(stand) = self.stands.get_mut(task) else {
            return Ok(ToldStep {
                task,
                line: 0,
                act: Act::Pause,
            });
        };
        stand.advance(alloc, self.code, statements)?;
        Ok(ToldStep {
            task,
            line: line_in(self.procedures.as_slice(), stand.frames.as_slice()),
            act: match known {
                Some(act) => act,
                None => stand.act(self.code, child, answer),
            },
        })
    }

    /// Where the task of this index stands.
    pub fn standing(&self, alloc: Global, task: usize) -> Result<Standing, AllocError> {
        let frames = match self.stands.get(task) {
            Some(stand) => stand.frames.as_slice(),
            None => &[],
        };
        standing_in(alloc, self.procedures.as_slice(), frames)
    }

    /// After a task's step of this number, which left the variables so. One that met an error leaves the
    /// task where it is.
    pub fn stepped(
        &mut self,
        alloc: Global,
        variables: &[Variable<Any>],
        told: ToldStep,
        number: usize,
        said: Stepped,
    ) -> Result<(), AllocError> {
        match said {
            Stepped::Done => self.goes_on(alloc, variables, told, number),
            Stepped::Error(_) => Ok(()),
        }
    }

    /// After a task's step of this number, which met no error.
    fn goes_on(
        &mut self,
        alloc: Global,
        variables: &[Variable<Any>],
        told: ToldStep,
        number: usize,
    ) -> Result<(), AllocError> {
        let code = self.code;
        let Some(stand) = self.stands.get_mut(told.task) else {
            return Ok(());
        };
        match told.act {
            Act::Fork { child: _ } => {
                let forked = stand.forked(alloc, code)?;
                stand.done();
                self.begin(
                    Begin::Forked {
                        by: told.task,
                        step: number,
                    },
                    forked,
                )
            }
            Act::Get { answer, .. } => {
                stand.answered(code, answer.unwrap_or(0));
                Ok(())
            }
            Act::Freeze { variable } => {
                stand.frozen(code, events_in(alloc, variables, variable)?);
                Ok(())
            }
            Act::End => {
                stand.end();
                Ok(())
            }
            Act::Put { .. } | Act::Add { .. } => {
                stand.done();
                Ok(())
            }
            Act::Begin | Act::Pause | Act::Fault(_) => Ok(()),
        }
    }

    /// One more task, if it is known where it stands.
    fn begin(&mut self, begin: Begin, stand: Option<Stand>) -> Result<(), AllocError> {
        match stand {
            Some(stand) => self.start(begin, stand),
            None => Ok(()),
        }
    }

    /// After a handing, which started the procedure on the variable's event: the procedure's line.
    pub fn handed(
        &mut self,
        alloc: Global,
        variable: usize,
        procedure: usize,
        event: Event,
        step: usize,
    ) -> Result<usize, AllocError> {
        let mut arguments = Vec::new(alloc);
        arguments.push(event.key)?;
        arguments.push(event.number)?;
        let stand = Stand::begun(alloc, self.code, procedure, arguments)?;
        let begin = Begin::Handed {
            variable,
            event,
            step,
        };
        self.start(begin, stand)?;
        Ok(match self.procedures.get(procedure) {
            Some(procedure) => procedure.line,
            None => 0,
        })
    }
}

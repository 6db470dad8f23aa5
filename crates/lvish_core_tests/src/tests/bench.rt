//! A core beside its code. Each call is made once more where a growth was refused, after it was seen
//! that the core is as it was.

ghost use Rattle.std.specs.Prelude.{◌≡◌};

use crate::tests::seen::Seen;
use lvish_calculus::{Label, Program};
use lvish_compound::Event;
use lvish_core::{Core, StepFault, Stepped};
use lvish_names::{HandlerName, TaskName};
use lvish_task::ScriptCode;
use std::alloc::{AllocError, Global};
use std::fmt::Write;
use std::process::Abort;

/// A call that makes a step.
#[derive(Drop)]
pub enum Call {
    Step(Label<Event>),
    /// The task's step, with its request already computed.
    Asked(TaskName<Event>),
    /// The handing of what comes next.
    Hand(HandlerName<Event>),
}

/// A script's core.
struct Bench<'p> {
    code: &'p ScriptCode,
    core: Core<'p, ScriptCode>,
    ghost same: { core.program ≡ code.now },
}

// Written out, so that it is proved once, and not at each exit of a function that owns one.
impl<'p> Drop for Bench<'p> {
    fn drop(self) {
        let Bench { code: _, core: _ } = self;
    }
}

impl<'p> Bench<'p> {
    fn new(alloc: Global, code: &'p ScriptCode) -> Result<Self, AllocError> {
        let core = Core::new(alloc, code)?;
        Ok(Bench { code, core })
    }

    /// A bench; asked for again where a growth was refused.
    fn new_at_last(alloc: Global, code: &'p ScriptCode) -> Result<Self, AllocError> {
        match Bench::new(alloc, code) {
            Ok(bench) => Ok(bench),
            Err(_) => Bench::new(alloc, code),
        }
    }

    /// What is seen; looked at again where a growth was refused.
    fn seen_at_last(&self, alloc: Global) -> Result<Seen, AllocError> {
        match self.seen(alloc) {
            Ok(seen) => Ok(seen),
            Err(_) => self.seen(alloc),
        }
    }

    /// What is seen, and what main asks for.
    fn seen(&self, alloc: Global) -> Result<Seen, AllocError> {
        let text = self.text(alloc)?;
        Seen::new(text, self.core.request_of(alloc, &TaskName::main())?)
    }

    /// The labels that the core can take, its variables, the handlers on the first one, and the rest
    /// that is seen.
    fn text(&self, alloc: Global) -> Result<String, AllocError> {
        let mut text = String::new(alloc);
        write!(text, "{:?}", self.core.labels(alloc)?.as_slice())?;
        write!(text, "{:?}", self.core.states())?;
        if self.code.variables() > 0 {
            write!(text, "{:?}", self.core.handlers(0))?;
        }
        self.write_rest(alloc, &mut text)?;
        Ok(text)
    }

    /// Writes the numbers of steps and of tasks that haven't ended, whether all have, what the last step
    /// concerned, and the error if there is one.
    fn write_rest(&self, alloc: Global, text: &mut String) -> Result<(), AllocError> {
        write!(text, "{} {}", self.core.steps(), self.core.running())?;
        write!(text, "{}", self.core.is_ended(alloc)?)?;
        write!(
            text,
            "{:?} {:?}",
            self.core.last_touched(),
            self.core.fault()
        )
    }

    /// What the call answers.
    fn called(&mut self, alloc: Global, call: &Call) -> Result<Stepped, StepFault> {
        match call {
            Call::Step(label) => self.core.step(alloc, label),
            Call::Asked(name) => self.asked(alloc, name),
            Call::Hand(name) => {
                let (stepped, _moved) = self.core.step_hand(alloc, name)?;
                Ok(stepped)
            }
        }
    }

    fn asked(&mut self, alloc: Global, name: &TaskName<Event>) -> Result<Stepped, StepFault> {
        let Some(local) = self.core.local_of(name) else {
            return Err(StepFault::NotEnabled);
        };
        let asks = self.code.ask(alloc, local)?;
        let (stepped, _moved) = self.core.step_asked(alloc, name, &asks)?;
        Ok(stepped)
    }

    /// What the call answers, and again where a growth was refused: the core is as it was.
    fn answer(
        &mut self,
        rt: &impl Abort,
        alloc: Global,
        call: &Call,
    ) -> Result<Result<Stepped, StepFault>, AllocError> {
        let before = self.seen_at_last(alloc)?;
        match self.called(alloc, call) {
            Err(StepFault::Memory) => {
                assert!(rt; self.seen(alloc)?.is(&before));
                Ok(self.called(alloc, call))
            }
            answer => Ok(answer),
        }
    }

    /// Whether the call makes a step: the label is enabled, the request can be made, or an event
    /// comes next.
    fn is_open(&self, alloc: Global, call: &Call) -> Result<bool, AllocError> {
        match call {
            Call::Step(label) => self.core.enabled(alloc, label),
            Call::Asked(name) => match self.core.request_of(alloc, name)? {
                Some(request) => Ok(self.core.can(name, &request)),
                None => Ok(false),
            },
            Call::Hand(name) => Ok(self.core.next(name).is_some()),
        }
    }

    fn is_open_at_last(&self, alloc: Global, call: &Call) -> Result<bool, AllocError> {
        match self.is_open(alloc, call) {
            Ok(open) => Ok(open),
            Err(_) => self.is_open(alloc, call),
        }
    }

    /// What the call answers, as it was seen to be open or not.
    fn told(
        &mut self,
        rt: &impl Abort,
        alloc: Global,
        call: &Call,
    ) -> Result<Result<Stepped, StepFault>, AllocError> {
        let open = self.is_open_at_last(alloc, call)?;
        let answer = self.answer(rt, alloc, call)?;
        assert_eq!(rt; open, answer != Err(StepFault::NotEnabled));
        Ok(answer)
    }

    /// The step with the label in the middle of those that the core can take.
    fn middle(&self, alloc: Global, asked: bool) -> Result<Option<Call>, AllocError> {
        let labels = self.core.labels(alloc)?;
        match labels.get(labels.len() / 2) {
            Some(Label::Act(name)) if asked => Ok(Some(Call::Asked(name.copy()?))),
            Some(Label::Act(name)) => Ok(Some(Call::Step(Label::Act(name.copy()?)))),
            Some(Label::Hand(name, _)) => Ok(Some(Call::Hand(name.copy()?))),
            None => Ok(None),
        }
    }

    fn middle_at_last(&self, alloc: Global, asked: bool) -> Result<Option<Call>, AllocError> {
        match self.middle(alloc, asked) {
            Ok(call) => Ok(call),
            Err(_) => self.middle(alloc, asked),
        }
    }

    /// Each task is found by its name where it stands.
    fn finds_each(&self, rt: &impl Abort) {
        for index in 0..self.core.tasks() {
            let found = self.core.numbers_at(index);
            let Some(name) = self.core.name_at(index) else {
                panic!(rt; "no task stands at {index}")
            };
            let standing = match self.core.standing_of(name) {
                Some((_, numbers)) => Some(numbers),
                None => None,
            };
            assert!(rt; standing == found);
            assert_eq!(rt; self.core.local_of(name).is_some(), found.is_some());
        }
    }
}

/// A run to its end, of at most so many steps: how many tasks there are then. After each step each task
/// is found by its name: the one that the step made behind those in the index, the others in it.
pub fn tasks_at_the_end(
    rt: &impl Abort,
    alloc: Global,
    code: &ScriptCode,
    most: u64,
) -> Result<usize, AllocError> {
    let mut bench = Bench::new_at_last(alloc, code)?;
    for step in 0..most {
        let Some(call) = bench.middle_at_last(alloc, step % 2 == 0)? else {
            break;
        };
        let _answer = bench.told(rt, alloc, &call)?;
        bench.finds_each(rt);
    }
    bench.core.index_names();
    bench.finds_each(rt);
    Ok(bench.core.tasks())
}

/// What these calls of a core answer.
pub fn answers(
    rt: &impl Abort,
    alloc: Global,
    code: &ScriptCode,
    calls: &[Call],
) -> Result<String, AllocError> {
    let mut bench = Bench::new_at_last(alloc, code)?;
    let mut text = String::new(alloc);
    for call in calls {
        match bench.told(rt, alloc, call)? {
            Ok(stepped) => write!(text, "{stepped:?} ")?,
            Err(fault) => write!(text, "{fault:?} ")?,
        }
    }
    Ok(text)
}

/// What main's step answers, and again where a growth was refused: no step was made.
fn stepped(
    rt: &impl Abort,
    alloc: Global,
    core: &mut Core<'_, ScriptCode>,
    main: &Label<Event>,
) -> Result<Stepped, StepFault> {
    let steps = core.steps();
    match core.step(alloc, main) {
        Err(StepFault::Memory) => {
            assert_eq!(rt; core.steps(), steps);
            core.step(alloc, main)
        }
        answer => answer,
    }
}

/// How many of this many steps of main are made, and what one more answers.
pub fn many(
    rt: &impl Abort,
    alloc: Global,
    code: &ScriptCode,
    count: u64,
) -> Result<(u64, Result<Stepped, StepFault>), StepFault> {
    let mut core = Core::new(alloc, code)?;
    let main = Label::Act(TaskName::main());
    let mut made = 0u64;
    for _ in 0..count {
        if stepped(rt, alloc, &mut core, &main)? == Stepped::Done {
            made = made.saturating_add(1);
        }
    }
    Ok((made, stepped(rt, alloc, &mut core, &main)))
}

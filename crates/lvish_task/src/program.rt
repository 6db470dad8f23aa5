ghost use Rattle.std.specs.Prelude.{◌≡◌, IfOk};
ghost use Rattle.lvish_task.specs.Run.{functions};
ghost use Rattle.lvish_calculus.specs.declared.request.Reply.TheVariants.{Content};

use crate::frame::Frame;
use crate::heard::Heard;
use crate::in_place::InPlace;
use crate::local::Local;
use crate::script_code::ScriptCode;
use crate::values::Values;
use lvish_calculus::{Asks, Program, Reply};
use lvish_compound::{Any, AnyRead, Event};
use std::alloc::{AllocError, Global};

impl Program for ScriptCode {
    ghost use Rattle.lvish_task.specs.Run.{functions};

    type Lat = Any;

    type Local = Local;

    ghost functions = { functions };

    fn variables(&self) -> usize {
        self.flat.kinds().len()
    }

    fn pool_variable(&self, pool: usize) -> Option<usize> {
        self.flat.pools().get(pool).copied()
    }

    fn start(&self, alloc: Global) -> Result<Local, AllocError> {
        self.begin(alloc, self.flat.main(), Values::few(InPlace::new()))
    }

    fn start_handler(
        &self,
        alloc: Global,
        procedure: usize,
        event: &Event,
    ) -> Result<Local, AllocError> {
        self.begin(
            alloc,
            procedure,
            Values::few(InPlace::two(event.key, event.number)),
        )
    }

    fn copy_local(&self, _alloc: Global, local: &Local) -> Result<Local, AllocError> {
        local.copy()
    }

    fn ask(&self, alloc: Global, local: &Local) -> Result<Asks<Any, AnyRead, Local>, AllocError> {
        self.asked(alloc, local, None)
    }

    fn ask_with(
        &self,
        alloc: Global,
        local: &Local,
        spare: Option<Local>,
    ) -> Result<Asks<Any, AnyRead, Local>, AllocError>
        ensures request { IfOk result (λ a. a.request ≡ (functions self.now).request local.now) }
        ensures at { IfOk result (λ a. a.at ≡ (functions self.now).at local.now) }
    {
        self.asked(alloc, local, spare)
    }

    fn resume(&self, alloc: Global, at: Local, reply: Reply<Any, i64>) -> Result<Local, AllocError>
        ensures { IfOk result (λ l. l ≡ (functions self.now).resume at reply) }
    {
        self.resumed(alloc, at, Heard::of(&reply))
    }

    fn resume_on(&self, alloc: Global, at: Local, content: &Any) -> Result<Local, AllocError>
        ensures { IfOk result (λ l. l ≡ (functions self.now).resume at (Content content.now)) }
    {
        self.resumed(alloc, at, Heard::Content(content))
    }

    ghost use Rattle.std.specs.Prelude.{refl};
    ghost use Rattle.lvish_compound.specs.laws.KindLaws.{events_identical};
    ghost use Rattle.lvish_task.specs.laws.Program.{frame_identical, local_identical, code_is_program};

    ghost identical = { local_identical ⟦<Frame as PartialEq>⟧.eq (frame_identical ⟦<Event as PartialEq>⟧.eq (events_identical _ (λ d e. refl)) _ (λ a b. refl)) _ (λ a b. refl) };

    ghost lawful = { code_is_program };
}

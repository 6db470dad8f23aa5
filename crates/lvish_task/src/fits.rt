ghost use Rattle.std.specs.Prelude.{◌≡◌};
ghost use Rattle.std.specs.List.{list_all};
ghost use Rattle.lvish_task.specs.Run.{fits_frame, is_fitting, routine};
ghost use Rattle.lvish_code.specs.Sound.{takes_count};

use crate::frame::Frame;
use crate::frames::Frames;
use crate::limits::{MOST_BELOW, TURNS};
use crate::local::Local;
use crate::script_code::ScriptCode;

impl ScriptCode {
    /// Whether there is a procedure with this number, and it takes this many values.
    fn takes(&self, procedure: usize, count: usize) -> bool
        ensures { result ≡ takes_count count (routine self.now.flat procedure) }
    {
        match self.routine(procedure) {
            Some(routine) => routine.parameters == count,
            None => false,
        }
    }

    fn fits_frame(&self, frame: &Frame) -> bool
        ensures { result ≡ fits_frame self.now.flat frame.now }
    {
        match self.routine(frame.procedure) {
            None => false,
            Some(routine) => {
                frame.place < routine.instructions.as_slice().len()
                    && frame.values.len() == routine.locals
                    && (frame.events.is_empty() || self.takes(frame.each, 2))
            }
        }
    }

    fn fit_each(&self, frames: &[Frame]) -> bool
        ensures { result ≡ list_all (fits_frame self.now.flat) frames.now }
    {
        frames.iter().all(|frame| self.fits_frame(frame))
    }

    fn fit_all(&self, frames: &Frames) -> bool
        ensures { result ≡ list_all (fits_frame self.now.flat) frames.now }
    {
        self.fit_each(frames.as_slice())
    }

    /// Whether the local state is one of this code: each frame's procedure is there, its place lies
    /// within it, it has a value for each of its locals, and an `each` calls a procedure of two
    /// parameters; there are `MOST_BELOW` frames below the innermost one at most, and `TURNS`
    /// local statements left at most.
    pub fn fits(&self, local: &Local) -> bool
        ensures { result ≡ is_fitting self.now local.now }
    {
        let stack = local.stack();
        self.fits_frame(&stack.top)
            && self.fit_all(&stack.below)
            && stack.below.len() <= MOST_BELOW
            && stack.left <= TURNS
    }
}

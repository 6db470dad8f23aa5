//! The pool of a task.

ghost use Rattle.std.specs.Prelude.{◌≡◌, IfOk, option_and_then, option_map};
ghost use Rattle.lvish_calculus.specs.Calculus.{IsLive};
ghost use Rattle.lvish_core.specs.Core.{state};
ghost use Rattle.lvish_core.specs.Places.{IsPlaceOf};

use super::Core;
use crate::handler_place::{HandlerPlace, HandlerSeat};
use lvish_calculus::{Meaning, Program};
use lvish_lattice::Lattice;
use lvish_names::TaskName;
use std::alloc::AllocError;

impl<'p, P: Program> Core<'p, P> {
    /// Where the handler is in whose pool the task runs, if it runs in one.
    #[inline(always)]
    pub(super) fn place_of(
        &self,
        name: &TaskName<<P::Lat as Lattice>::Event>,
    ) -> Result<Option<HandlerPlace>, AllocError>
        ensures { IfOk result (λ o. IsPlaceOf (⟦<P as Meaning>⟧.machine self.now.program) (state (⟦<P as Meaning>⟧.machine self.now.program) self.now) name.now o) }
    {
        match self.last_handed() {
            Some((HandlerSeat { variable, .. }, last)) if name.runs_in(&last.name) => {
                let place = HandlerPlace::new(variable, last.pool, last.procedure);
                Ok(Some(place))
            }
            _ => self.place_by_name(name),
        }
    }

    /// Where the handler is in whose pool the task runs, if it runs in one, found by its name.
    #[inline(never)]
    fn place_by_name(
        &self,
        name: &TaskName<<P::Lat as Lattice>::Event>,
    ) -> Result<Option<HandlerPlace>, AllocError>
        ensures { IfOk result (λ o. IsPlaceOf (⟦<P as Meaning>⟧.machine self.now.program) (state (⟦<P as Meaning>⟧.machine self.now.program) self.now) name.now o) }
    {
        match name.pool_of()? {
            Some(handler) => Ok(self.places.get(&handler)),
            None => Ok(None),
        }
    }
}

//! Where a handler stands.

ghost use Rattle.std.specs.Prelude.{◌≡◌, IfSome, MatchOption};
ghost use Rattle.lvish_core.specs.Core.{IsNext};
ghost use Rattle.lvish_core.specs.Seats.{IsSeat, IsPosted};

use super::Core;
use crate::handler_place::{HandlerPlace, HandlerSeat};
use lvish_calculus::laws::lawful;
use lvish_calculus::{Meaning, Program};
use lvish_handlers::Held;
use lvish_lattice::Lattice;
use lvish_names::HandlerName;
use lvish_picture::laws::handlers_are_held;

impl<'p, P: Program> Core<'p, P> {
    /// Where the handler stands among those of its variable; `None` where it isn't there.
    ///
    /// The handler that was handed an event last is looked at first.
    #[inline(always)]
    pub(super) fn seat_of(
        &self,
        name: &HandlerName<<P::Lat as Lattice>::Event>,
    ) -> Option<HandlerSeat>
        ensures { MatchOption result ((e : P.Lat.Event) → IsNext P.Lat.Event.eq self.now.table name.now e → ⊥) (λ s. IsSeat self.now.table.handlers name.now s) }
    {
        lawful::<P>();
        match self.last_handed() {
            Some((seat, last)) if last.name == *name => Some(seat),
            _ => self.search(name),
        }
    }

    /// The handler that stands where that one stood which was handed an event last, and where that is.
    #[inline(always)]
    pub(super) fn last_handed(&self) -> Option<(HandlerSeat, &Held<<P::Lat as Lattice>::Event>)>
        ensures { IfSome result (λ s. IsPosted (⟦<P as Meaning>⟧.machine self.now.program) self.now s.1.now s.0) }
    {
        lawful::<P>();
        handlers_are_held::<P>();
        let seat = self.last_seat;
        let beside = self.handlers.get(seat.variable)?;
        let held = beside.held().get(seat.at)?;
        Some((seat, held))
    }

    /// Where the handler stands, found by its name among all.
    #[inline(never)]
    fn search(&self, name: &HandlerName<<P::Lat as Lattice>::Event>) -> Option<HandlerSeat>
        ensures { MatchOption result ((e : P.Lat.Event) → IsNext P.Lat.Event.eq self.now.table name.now e → ⊥) (λ s. IsSeat self.now.table.handlers name.now s) }
    {
        lawful::<P>();
        handlers_are_held::<P>();
        let Some(HandlerPlace { variable, .. }) = self.places.get(name) else {
            return None;
        };
        let Some(at) = self.handlers[variable].find(name) else {
            return None;
        };
        Some(HandlerSeat { variable, at })
    }
}

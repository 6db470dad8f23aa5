//! A handler's seat: its entry among its variable's handlers, and its place by its name.

ghost use Rattle.std.specs.Prelude.{◌≡◌, false, None, Some, IfOk, MatchResult};
ghost use Rattle.lvish_core.specs.Beside.{AddedAt, CanAdd};
ghost use Rattle.lvish_core.specs.Places.{place_at, PlacesAt, SamePlaces};

use crate::beside::add_at;
use crate::handler_place::HandlerPlace;
use crate::places::Places;
use lvish_handlers::Handlers;
use lvish_lattice::Lattice;
use lvish_names::{HandlerName, handler_names_identical};
use lvish_variable::Variable;
use std::alloc::{AllocError, Global};

/// Adds a handler on the variable, which isn't frozen, and its place; answers its name.
pub(crate) fn seat<L: Lattice>(
    places: &mut Places<L::Event>,
    handlers: &mut [Handlers<L>],
    alloc: Global,
    variable: &Variable<L>,
    name: HandlerName<L::Event>,
    place: HandlerPlace,
) -> Result<HandlerName<L::Event>, AllocError>
    requires fits { CanAdd name place handlers.old }
    requires new { place_at L.Event.eq places.old name ≡ None }
    requires unfrozen { variable.now.frozen ≡ false }
    ensures handlers { MatchResult result
        (λ _. AddedAt (record { name = name; pool = place.pool; procedure = place.procedure; handed = 0 }) place.variable handlers.old handlers.new)
        (λ _. handlers.new ≡ handlers.old) }
    ensures named { IfOk result (λ again. again ≡ name) }
    ensures places { MatchResult result (λ _. PlacesAt L.Event.eq places.old name (Some place) places.new) (λ _. SamePlaces L.Event.eq places.old places.new) }
{
    handler_names_identical::<L::Event>();
    let key = name.copy()?;
    let again = name.copy()?;
    places.insert(key, place)?;
    if let Err(refused) = add_at(handlers, alloc, variable, name, place) {
        places.remove(&again);
        return Err(refused);
    }
    Ok(again)
}

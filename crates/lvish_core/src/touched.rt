ghost use Rattle.std.specs.Prelude.{◌≡◌, option_map};
ghost use Rattle.lvish_core.specs.declared.touched.Touched.TheVariants.{Ended};
ghost use Rattle.lvish_core.specs.Changes.{touching};

use crate::handler_place::HandlerPlace;

/// What the last step concerned, as far as something else may wait for it.
///
/// A blocked task has to be asked again only after a step that concerned its variable
/// ([`blocked_tasks`](crate::laws::blocked_tasks)).
#[derive(Clone, Copy, Debug, PartialEq, Eq)]
pub enum Touched {
    /// A put into this variable.
    Put(usize),
    /// An event of this variable was handed.
    Handed(usize),
    /// A task of one of this variable's pools has ended.
    Ended(usize),
    /// None of these, or an error.
    Other,
}

impl Touched {
    /// A task has ended in the pool, if it was in one.
    pub(crate) fn ended_in(place: Option<HandlerPlace>) -> Touched
        ensures { result ≡ touching (λ v. Ended v) (option_map (λ p. p.variable) place) }
    {
        match place {
            Some(place) => Touched::Ended(place.variable),
            None => Touched::Other,
        }
    }
}

ghost use Rattle.std.specs.Prelude.{◌≡◌, ◌∷◌, [], MatchOption};

use crate::name_part::NamePart;
use crate::path::{Link, link_of};
use std::marker::Model;

/// The parts of a name after `main`, seen from the last one.
#[derive(Drop)]
pub struct Parts<'n, E> {
    pub(crate) link: Option<&'n Link<E>>,
}

impl<'n, E> Model for Parts<'n, E> {
    ghost use Rattle.std.specs.Option.{option_copied};
    ghost use Rattle.lvish_names.specs.Names.{Name};
    ghost use Rattle.lvish_names.specs.Path.{path_parts};

    ghost Value = { Name E };

    ghost view = { λ p. path_parts (option_copied p.link) };
}

impl<'n, E> Parts<'n, E> {
    /// The last part, and those before it.
    pub fn split_last(self) -> Option<(&'n NamePart<E>, Parts<'n, E>)>
        ensures { MatchOption result (self.entry ≡ []) (λ s. self.entry ≡ s.0.now ∷ s.1) }
    {
        let link = self.link?;
        let before = link_of(&link.before);
        Some((&link.last, Parts { link: before }))
    }
}

ghost use Rattle.std.specs.Prelude.{◌≡◌, ◌||◌, not, false, IfOk, OnErr, OnOk};
ghost use Rattle.std.specs.Str.{bytes_eq};
ghost use Rattle.lvish_syntax.specs.Words.{Word};
ghost use Rattle.lvish_syntax.specs.Name.{has_name};

use indexmap::IndexSet;
use lvish_syntax::Identifier;
use std::alloc::{AllocError, Global};
use std::marker::Model;

/// Names of a script, to be looked up.
pub struct NameSet<'a> {
    names: IndexSet<&'a str>,
}

// Written out, so that it is proved once, and not at each exit of a function that owns one.
impl<'a> Drop for NameSet<'a> {
    fn drop(self) {
        let NameSet { names: _ } = self;
    }
}

impl<'a> Model for NameSet<'a> {
    ghost use Rattle.std.specs.Prelude.{List, ℕ, map};

    ghost Value = { List (List ℕ) };

    ghost view = { λ s. map (λ k. k.now) s.names.keys };
}

impl<'a> NameSet<'a> {
    pub fn new(alloc: Global) -> NameSet<'a>
        ensures { (q : Word) → has_name q result ≡ false }
    {
        NameSet {
            names: IndexSet::new(alloc),
        }
    }

    /// No names, with room for this many.
    pub fn with_room(alloc: Global, room: usize) -> Result<NameSet<'a>, AllocError>
        ensures { IfOk result (λ s. (q : Word) → has_name q s ≡ false) }
    {
        Ok(NameSet {
            names: IndexSet::with_capacity(alloc, room)?,
        })
    }

    /// Adds a name, and says whether it wasn't there.
    pub fn add(&mut self, name: &'a Identifier) -> Result<bool, AllocError>
        ensures fresh { IfOk result (λ is_new. is_new ≡ not (has_name name.now self.old)) }
        ensures names { OnOk result ((q : Word) → has_name q self.new ≡ (bytes_eq name.now q || has_name q self.old)) }
        ensures refused { OnErr result (self.new ≡ self.old) }
    {
        let (_, is_new) = self.names.insert_full(name.as_str())?;
        Ok(is_new)
    }

    pub fn contains(&self, name: &Identifier) -> bool
        ensures { result ≡ has_name name.now self.now }
    {
        self.names.contains(name.as_str())
    }
}

ghost use Rattle.std.specs.Prelude.{◌≡◌, OnErr, OnOk, [], length};
ghost use Rattle.lvish_code.specs.Numbering.{name_number, with_name};

use indexmap::IndexSet;
use lvish_syntax::Identifier;
use std::alloc::{AllocError, Global};
use std::marker::Model;

/// Different names in order, each with its number, from 0.
pub struct Numbering<'a> {
    names: IndexSet<&'a str>,
}

// Written out, so that it is proved once, and not at each exit of a function that owns one.
impl<'a> Drop for Numbering<'a> {
    fn drop(self) {
        let Numbering { names: _ } = self;
    }
}

impl<'a> Model for Numbering<'a> {
    ghost use Rattle.std.specs.Prelude.{List, ℕ, map};

    ghost Value = { List (List ℕ) };

    ghost view = { λ n. map (λ k. k.now) n.names.keys };
}

impl<'a> Numbering<'a> {
    pub fn new(alloc: Global) -> Numbering<'a>
        ensures { result ≡ [] }
    {
        Numbering {
            names: IndexSet::new(alloc),
        }
    }

    /// Adds a name, unless it is there.
    pub fn add(&mut self, name: &'a Identifier) -> Result<(), AllocError>
        ensures added { OnOk result (self.new ≡ with_name self.old name.now) }
        ensures refused { OnErr result (self.new ≡ self.old) }
    {
        self.names.insert_full(name.as_str())?;
        Ok(())
    }

    /// How many names there are.
    pub fn len(&self) -> usize
        ensures { result ≡ length self.now }
    {
        self.names.len()
    }

    /// The number of a name, and how many names there are where it isn't one of them.
    pub fn number_of(&self, name: &str) -> usize
        ensures { result ≡ name_number self.now name.now }
    {
        self.names.get_index_of(name).unwrap_or(self.names.len())
    }
}

ghost use Rattle.std.specs.Prelude.{◌≡◌, None, Some, OnErr, OnOk, if◌then◌else◌};
ghost use Rattle.std.specs.Str.{bytes_eq};
ghost use Rattle.std.specs.Option.{option_or};
ghost use Rattle.lvish_syntax.specs.Words.{Word};
ghost use Rattle.lvish_checks.specs.Table.{value_at};

use indexmap::IndexMap;
use lvish_syntax::Identifier;
use std::alloc::{AllocError, Global};
use std::marker::Model;

/// A value at each of some names, to be looked up.
pub struct NameTable<'a, V> {
    values: IndexMap<&'a str, V>,
}

// Written out, so that it is proved once, and not at each exit of a function that owns one.
impl<'a, V: Drop> Drop for NameTable<'a, V> {
    fn drop(self) {
        let NameTable { values: _ } = self;
    }
}

impl<'a, V> Model for NameTable<'a, V> {
    ghost use Rattle.std.specs.Prelude.{List, ℕ, map};

    ghost Value = { List (List ℕ × V) };

    ghost view = { λ t. map (λ e. (e.0.now, e.1)) t.values.entries };
}

impl<'a, V: Copy> NameTable<'a, V> {
    pub fn new(alloc: Global) -> NameTable<'a, V>
        ensures { (q : Word) → value_at q result ≡ None }
    {
        NameTable {
            values: IndexMap::new(alloc),
        }
    }

    /// Adds a value at a name, unless there is one.
    pub fn add(&mut self, name: &'a Identifier, value: V) -> Result<(), AllocError>
        ensures added { OnOk result ((q : Word) → value_at q self.new ≡ option_or (value_at q self.old) (if bytes_eq name.now q then Some value else None)) }
        ensures refused { OnErr result (self.new ≡ self.old) }
    {
        if !self.values.contains_key(name.as_str()) {
            self.values.insert(name.as_str(), value)?;
        }
        Ok(())
    }

    /// The value at a name, if there is one.
    pub fn get(&self, name: &Identifier) -> Option<V>
        ensures { result ≡ value_at name.now self.now }
    {
        self.values.get(name.as_str()).copied()
    }
}

ghost use Rattle.std.specs.Prelude.{◌≡◌, [], IfOk, OnErr, length, slice_get};
ghost use Rattle.std.specs.Option.{option_map};
ghost use Rattle.lvish_facts.specs.Names.{IsNumbered};

use crate::node::Node;
use indexmap::IndexSet;
use std::alloc::{AllocError, Global};
use std::marker::Model;

/// Names, each once, by their numbers.
pub struct Names<'a> {
    names: IndexSet<&'a [u8]>,
}

// Written out, so that it is proved once, and not at each exit of a function that owns one.
impl<'a> Drop for Names<'a> {
    fn drop(self) {
        let Names { names: _ } = self;
    }
}

impl<'a> Model for Names<'a> {
    ghost use Rattle.std.specs.Prelude.{List};
    ghost use Rattle.lvish_facts.specs.Names.{Word, names_in};

    ghost Value = { List Word };

    ghost view = { λ s. names_in s.names.keys };
}

impl<'a> Names<'a> {
    /// No names.
    pub fn new(alloc: Global) -> Names<'a>
        ensures { result ≡ [] }
    {
        Names {
            names: IndexSet::new(alloc),
        }
    }

    /// The node of the name, which comes last where there was none.
    pub fn node(&mut self, name: &'a [u8]) -> Result<Node, AllocError>
        ensures numbered { IfOk result (IsNumbered self.old self.new name.now) }
        ensures refused { OnErr result (self.new ≡ self.old) }
    {
        let (number, _) = self.names.insert_full(name)?;
        Ok(Node { number })
    }

    /// The name of the node, if there is such a node.
    pub fn name(&self, node: Node) -> Option<&'a [u8]>
        ensures { option_map (λ name. name.now) result ≡ slice_get self.now node.number }
    {
        self.names.get_index(node.number).copied()
    }

    /// How many names there are.
    pub fn len(&self) -> usize
        ensures { result ≡ length self.now }
    {
        self.names.len()
    }
}

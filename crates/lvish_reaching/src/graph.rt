ghost use Rattle.std.specs.Prelude.{◌≡◌, ◌<◌, ℕ, [], ◌∷◌, IfOk, OnOk, length, slice_get};
ghost use Rattle.std.specs.Option.{option_map};
ghost use Rattle.lvish_facts.specs.Names.{Word, IsNamed, names_in};
ghost use Rattle.lvish_reaching.specs.Edges.{edges_on};
ghost use Rattle.lvish_reaching.specs.Graphs.{lists_in, list_at, IsGraphOf, IsPushed, HasEdges, successors};

use lvish_facts::{Names, Node};
use std::alloc::{AllocError, Global};
use std::marker::Model;

/// The node of the root.
pub const ROOT: Node = Node { number: 0 };

/// The names of nodes, each once, and the successors of each node.
pub struct Graph<'a> {
    names: Names<'a>,
    /// By the number of a node; those behind the last have none.
    next: Vec<Vec<Node>>,
}

// Written out, so that it is proved once, and not at each exit of a function that owns one.
impl<'a> Drop for Graph<'a> {
    fn drop(self) {
        let Graph { names: _, next: _ } = self;
    }
}

impl<'a> Model for Graph<'a> {
    ghost use Rattle.lvish_reaching.specs.Graphs.{GraphView, lists_in};

    ghost Value = { GraphView };

    ghost view = { λ g. record { names = g.names; next = lists_in g.next.items } };
}

/// Has a list at the place.
fn reach_place(alloc: Global, next: &mut Vec<Vec<Node>>, place: usize) -> Result<(), AllocError>
    ensures there { OnOk result (place < length next.new.items) }
    ensures same { OnOk result ((k : ℕ) → list_at (lists_in next.new.items) k ≡ list_at (lists_in next.old.items) k) }
{
    while next.len() <= place {
        next.push(Vec::new(alloc))?;
    }
    Ok(())
}

/// Puts the node behind the others of the list at the place.
fn push_at(next: &mut Vec<Vec<Node>>, place: usize, to: Node) -> Result<(), AllocError>
    requires { place < length next.old.items }
    ensures { OnOk result (IsPushed (lists_in next.old.items) (lists_in next.new.items) place to) }
{
    next[place].push(to)?;
    Ok(())
}

impl<'a> Graph<'a> {
    /// The graph of the root alone.
    pub fn of_root(alloc: Global, root: &'a [u8]) -> Result<Graph<'a>, AllocError>
        ensures { IfOk result (λ g. IsGraphOf g root.now []) }
    {
        let mut names = Names::new(alloc);
        names.node(root)?;
        Ok(Graph {
            names,
            next: Vec::new(alloc),
        })
    }

    /// Adds the edge from a node to that of the name.
    fn add_edge(&mut self, alloc: Global, from: Node, to: &'a [u8]) -> Result<(), AllocError>
        ensures { OnOk result ((name : Word) → IsNamed self.old.names from name → HasEdges self.old self.new ((name, to.now) ∷ [])) }
    {
        let to = self.names.node(to)?;
        reach_place(alloc, &mut self.next, from.number)?;
        push_at(&mut self.next, from.number, to)
    }

    /// Adds the edges from a node to those of the names.
    fn add_edges(
        &mut self,
        alloc: Global,
        from: Node,
        others: &[&'a [u8]],
    ) -> Result<(), AllocError>
        ensures { OnOk result ((name : Word) → IsNamed self.old.names from name → HasEdges self.old self.new (edges_on (name ∷ names_in others.now))) }
    {
        for to in others {
            self.add_edge(alloc, from, to)?;
        }
        Ok(())
    }

    /// Adds the edges of a line of these words: from the first of them to each other.
    pub fn add_line(&mut self, alloc: Global, words: &[&'a [u8]]) -> Result<(), AllocError>
        ensures { OnOk result (HasEdges self.old self.new (edges_on (names_in words.now))) }
    {
        let Some((first, others)) = words.split_first() else {
            return Ok(());
        };
        let from = self.names.node(first)?;
        self.add_edges(alloc, from, others)
    }

    /// The name of the node, if there is such a node.
    pub fn name(&self, node: Node) -> Option<&'a [u8]>
        ensures { option_map (λ name. name.now) result ≡ slice_get self.now.names node.number }
    {
        self.names.name(node)
    }

    /// The successors of the node, none where there is no such node.
    pub fn successors(&self, node: Node) -> &[Node]
        ensures { result.now ≡ successors self.now node }
    {
        match self.next.get(node.number) {
            Some(next) => next.as_slice(),
            None => &[],
        }
    }
}

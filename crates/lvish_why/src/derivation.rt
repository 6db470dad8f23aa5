//! The derivation of an event.

use crate::premises::{Premise, premises_of};
use lvish_retrace::{Story, put_of};
use std::alloc::{AllocError, Global};

/// What stands in a derivation.
#[derive(Clone, Copy)]
pub enum What {
    /// A put, by its place among the puts that brought something.
    Put(usize),
    /// A put that stands above too.
    Again(usize),
    /// What a get of a tally's total read, in this line.
    Total { variable: usize, line: usize },
    /// What a freeze answered, in this line.
    Frozen { variable: usize, line: usize },
    /// There is more, below the depth that was asked for.
    More,
}

/// A part of a derivation. It stands below another, the one at the place `below`, but for the first.
#[derive(Clone, Copy)]
pub struct Node {
    pub what: What,
    pub below: Option<usize>,
    pub depth: usize,
    /// Whether it follows from something.
    pub follows: bool,
}

/// A derivation that grows.
struct Growing<'a, 't> {
    told: &'a Story<'t>,
    nodes: Vec<Node>,
    /// Which puts stand in it, by their places.
    shown: Vec<bool>,
}

// Written out, so that it is proved once, and not at each exit of a function that owns one.
impl<'a, 't> Drop for Growing<'a, 't> {
    fn drop(self) {
        let Growing {
            told: _,
            nodes: _,
            shown: _,
        } = self;
    }
}

impl<'a, 't> Growing<'a, 't> {
    /// What a premise is told as.
    fn what_of(&self, premise: Premise) -> What {
        match premise {
            Premise::Event { variable, event } => {
                match put_of(self.told.brought.as_slice(), variable, &event) {
                    Some(place) if self.is_shown(place) => What::Again(place),
                    Some(place) => What::Put(place),
                    None => What::More,
                }
            }
            Premise::Total { variable, line } => What::Total { variable, line },
            Premise::Frozen { variable, line } => What::Frozen { variable, line },
        }
    }

    /// Whether a put stands in it.
    fn is_shown(&self, place: usize) -> bool {
        match self.shown.get(place) {
            Some(shown) => *shown,
            None => false,
        }
    }

    /// Its parts.
    fn into_nodes(self) -> Vec<Node> {
        let Growing {
            told: _,
            nodes,
            shown: _,
        } = self;
        nodes
    }

    /// What the put at this place follows from.
    fn premises(&self, alloc: Global, place: usize) -> Result<Vec<Premise>, AllocError> {
        let Some(put) = self.told.brought.get(place) else {
            return Ok(Vec::new(alloc));
        };
        let Some(step) = self.told.steps.get(put.step) else {
            return Ok(Vec::new(alloc));
        };
        let standing = self.told.standings.get(place);
        premises_of(alloc, self.told, step.task, put.step, standing)
    }

    /// Adds a part.
    fn push(
        &mut self,
        what: What,
        below: Option<usize>,
        depth: usize,
    ) -> Result<usize, AllocError> {
        let place = self.nodes.len();
        self.nodes.push(Node {
            what,
            below,
            depth,
            follows: false,
        })?;
        Ok(place)
    }

    /// Adds a put, and what it follows from, so much deeper.
    fn grow(
        &mut self,
        alloc: Global,
        put: usize,
        below: Option<usize>,
        depth: usize,
        left: u64,
    ) -> Result<(), AllocError> {
        let node = self.push(What::Put(put), below, depth)?;
        if let Some(shown) = self.shown.get_mut(put) {
            *shown = true;
        }
        let premises = self.premises(alloc, put)?;
        if premises.is_empty() {
            return Ok(());
        }
        if let Some(node) = self.nodes.get_mut(node) {
            node.follows = true;
        }
        if left == 0 {
            self.push(What::More, Some(node), depth.saturating_add(1))?;
            return Ok(());
        }
        for premise in premises.as_slice() {
            match self.what_of(*premise) {
                What::Put(put) => {
                    self.grow(alloc, put, Some(node), depth.saturating_add(1), left - 1)?;
                }
                what => {
                    self.push(what, Some(node), depth.saturating_add(1))?;
                }
            }
        }
        Ok(())
    }
}

/// The derivation of the event that the put at this place brought, down to this depth: each part
/// stands above those that it follows from.
pub fn derivation_of(
    alloc: Global,
    told: &Story<'_>,
    place: usize,
    depth: u64,
) -> Result<Vec<Node>, AllocError> {
    let mut shown = Vec::new(alloc);
    shown.resize(told.brought.len(), false)?;
    let mut growing = Growing {
        told,
        nodes: Vec::new(alloc),
        shown,
    };
    growing.grow(alloc, place, None, 0, depth)?;
    Ok(growing.into_nodes())
}

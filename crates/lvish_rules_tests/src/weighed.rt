//! A walk through a graph whose moves are said to take long, so that more workers are called.

ghost use Rattle.lvish_rules.specs.Sets.{only};

use lvish_lattice::GrowSet;
use lvish_rules::{Graph, Move, Rules};
use std::alloc::{AllocError, Global};

/// A graph, and how many statements each move is said to take.
#[derive(Debug, Drop)]
pub struct Weighed {
    pub graph: Graph,
    pub statements: usize,
}

impl Rules for Weighed {
    ghost use Rattle.lvish_rules_tests.specs.Weighed.{no_walk, weighed, weighed_named};

    type Lat = GrowSet<i64>;

    ghost rule_set = { weighed only };

    ghost blank = { no_walk };

    fn relations(&self) -> usize {
        self.graph.relations()
    }

    fn first(&self, alloc: Global, index: usize) -> Result<Option<Move<GrowSet<i64>>>, AllocError> {
        self.graph.first(alloc, index)
    }

    fn fire(
        &self,
        alloc: Global,
        watch: usize,
        event: &i64,
        index: usize,
    ) -> Result<Option<Move<GrowSet<i64>>>, AllocError> {
        self.graph.fire(alloc, watch, event, index)
    }

    fn statements(&self) -> usize {
        self.statements
    }

    ghost named = { weighed_named _ };
}

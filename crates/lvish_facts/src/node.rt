use lvish_lattice::Plain;

/// What has a name, by the name's number, from 0.
#[derive(Clone, Copy, Debug, PartialEq, Eq, PartialOrd, Ord, Hash)]
pub struct Node {
    pub number: usize,
}

impl Plain for Node {
    ghost use Rattle.std.specs.Prelude.{refl};
    ghost use Rattle.lvish_facts.specs.Nodes.{nodes_identical};

    ghost identical = { nodes_identical _ (λ a b. refl) };
}

use lvish_facts::Node;

/// What a fact is of: `p = &x`, `p = q`, `p = *q` or `*p = q`.
#[derive(Clone, Copy)]
pub enum Kind {
    Address,
    Copy,
    Load,
    Store,
}

/// A fact: its kind, and the two names behind it.
#[derive(Clone, Copy)]
pub struct Fact<N> {
    pub kind: Kind,
    pub left: N,
    pub right: N,
}

/// A fact whose names are numbered.
pub type NodeFact = Fact<Node>;

/// How a derivation is told. The event stands at depth 0, what it follows from at depth 1, and so on.
#[derive(Clone, Copy)]
pub enum Form {
    /// An indented tree, down to this depth.
    Tree { depth: u64 },
    /// A graph for Graphviz, down to this depth.
    Dot { depth: u64 },
}

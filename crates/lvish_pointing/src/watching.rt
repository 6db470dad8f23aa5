use lvish_facts::Node;

/// What a watch on a pointer does with each name that the pointer points to.
#[derive(Clone, Copy)]
pub enum Watching {
    /// This node points to it too.
    Into(Node),
    /// All that it points to flows into this node.
    Loading(Node),
    /// All that this node points to flows into it.
    Storing(Node),
}

// What a pass knows of its deque.
use std::collections::LinkedList;

// What the pass has pushed and what it has taken, what the passes that joined it have taken, and its parts of the right to
// know all that was taken. No value of it is made: it stands in the rule alone.
pub struct Log<T> {
    pub parts: u64,
    pub sent: LinkedList<T>,
    pub got: LinkedList<T>,
    pub joined: LinkedList<LinkedList<T>>,
}

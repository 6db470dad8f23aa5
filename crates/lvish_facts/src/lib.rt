//! What analyses of files are made of: names by number, sets of them, and lists of names in order.
//!
//! ```text
//! let mut names = Names::new(alloc);
//! let node = names.node(b"main")?;       // Node { number: 0 }, and so at each further call
//! names.name(node);                      // Some(b"main")
//! let set = gather(alloc, &[node])?;     // a GrowSet<Node>, for a put
//! sorted(alloc, &[b"main", b"check"])?;  // by their bytes, each once
//! ```
#![tactic(auto)]

mod gathering;
pub mod laws;
mod names;
mod node;
mod sorting;

pub use gathering::gather;
pub use names::Names;
pub use node::Node;
pub use sorting::{lines_with, sorted};

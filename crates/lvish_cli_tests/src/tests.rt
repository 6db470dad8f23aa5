//! What no file of rows can show, since it needs readers, writers and files that fail, or faults that a text
//! doesn't have.

mod endings;
mod fakes;
mod given;
mod streams;

use fakes::{Refusal, ShortWriter};

/// A handler puts the next number into its own set, up to 5, and the set is frozen after it.
const COUNTING: &[u8] =
    b"set s\npool p s\nproc h k n\nlet c n < 5\nif c\nlet m n + 1\nput s m\nend\nend\nproc main\nhandle p h\nput s 1\nfreeze x s after p\nend\n";

/// A writer that takes everything, a few bytes at a time.
fn willing() -> ShortWriter {
    ShortWriter::new(3, 0, Refusal::Fails)
}

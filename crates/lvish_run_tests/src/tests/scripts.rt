//! The scripts of the tests.

/// A task puts into a cell, its parent reads it.
pub const READ: &str =
    "cell a\nproc w\nput a 7\nend\nproc main\nfork w\nget x a any\nfreeze y a\nend\n";

/// Nothing but an end.
pub const NOTHING: &str = "proc main\nend\n";

/// A get that nothing wakes.
pub const BLOCKED: &str = "cell a\nproc main\nget x a any\nend\n";

/// Two tasks put the same value.
pub const TWICE: &str = "cell a\nproc w\nput a 3\nend\nproc main\nfork w\nfork w\nend\n";

/// Two tasks put different values.
pub const CONFLICT: &str = "cell a\nproc w n\nput a n\nend\nproc main\nfork w 1\nfork w 2\nend\n";

/// A handler that is handed two events, and a freeze after it.
pub const HANDLED: &str =
    "set s\nset out\npool p s\nproc c k n\nput out n\nend\nproc main\nhandle p c\nput s 3\nput s 1\nfreeze x s after p\nend\n";

/// A handler that puts into its own variable.
pub const CASCADE: &str =
    "set s\npool p s\nproc h k n\nlet c n < 5\nif c\nlet m n + 1\nput s m\nend\nend\nproc main\nhandle p h\nput s 1\nfreeze x s after p\nend\n";

/// A tree of forks.
pub const TREE: &str =
    "set s\nproc t n\nput s n\nlet c n < 32\nif c\nlet l n * 2\nlet r l + 1\nfork t l\nfork t r\nend\nend\nproc main\nfork t 1\nend\n";

/// A freeze in a handler that waits for its own pool.
pub const WAITS: &str =
    "set s\npool p s\nproc f k n\nfreeze x s after p\nend\nproc main\nhandle p f\nput s 1\nend\n";

/// Tasks with long loops, then many puts of one task, then both again: a crew pays, and it doesn't, by turns.
pub const PHASES: &str =
    "set s\nproc w k\nlet i 1700\nwhile i\nlet i i - 1\nend\nput s k\nend\nproc m from to\nlet c from < to\nwhile c\nfork w from\nlet from from + 1\nlet c from < to\nend\nend\nproc p from to\nlet c from < to\nwhile c\nput s from\nlet from from + 1\nlet c from < to\nend\nend\nproc main\ncall m 0 20\ncall p 20 500\ncall m 500 620\ncall p 620 2000\ncall m 2000 2020\nend\n";

/// Three tasks with long stretches, then one with short ones, then three with long ones: a crew is
/// called, sent away and called again.
pub const CHANGES: &str =
    "max m\nset ended\nproc busy first count\nlet i 0\nlet c i < count\nwhile c\nlet j 0\nlet d j < 250\nwhile d\nlet j j + 1\nlet d j < 250\nend\nput m i\nlet i i + 1\nlet c i < count\nend\nput ended first\nend\nproc brief first count\nlet i 0\nlet c i < count\nwhile c\nput m i\nlet i i + 1\nlet c i < count\nend\nend\nproc main\nfork busy 0 43\nfork busy 1 43\nfork busy 2 43\nget x ended has 0\nget x ended has 1\nget x ended has 2\ncall brief 3 262\nfork busy 4 190\nfork busy 5 190\nfork busy 6 190\nget x ended has 4\nget x ended has 5\nget x ended has 6\nfreeze z m\nend\n";

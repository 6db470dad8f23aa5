ghost use Rattle.std.specs.Prelude.{◌≡◌, ◌<◌};
ghost use Rattle.lvish_names.specs.Summaries.{of_main, fork_after, with_part};

use crate::limits::{FORK_FACTOR, MOST_PARTS};
use crate::name_part::NamePart;

/// What a link says of its path, so that nobody has to go along it.
#[derive(Clone, Copy, Debug)]
pub(crate) struct Summary {
    /// How many parts the path has.
    pub depth: u16,
    /// Whether an event stands in it.
    pub has_event: bool,
    /// The number of the forks behind its last event.
    pub code: u32,
}

impl Summary {
    /// That of the path to `main`, which has no parts.
    #[inline(always)]
    pub fn main() -> Summary
        ensures { result ≡ of_main }
    {
        Summary {
            depth: 0,
            has_event: false,
            code: 0,
        }
    }

    /// That of a path with one more part.
    #[inline(always)]
    pub fn followed_by<E>(self, part: &NamePart<E>) -> Summary
        requires { self.depth < MOST_PARTS }
        ensures { result ≡ with_part self part.now }
    {
        let depth = self.depth + 1;
        match part {
            NamePart::Fork(number) => Summary {
                depth,
                has_event: self.has_event,
                code: fork_after(self.code, *number),
            },
            NamePart::Hand(..) => Summary {
                depth,
                has_event: true,
                code: 0,
            },
        }
    }
}

/// The number of a task's fork, where `code` is the task's: 32 bits of both.
#[inline(always)]
fn fork_after(code: u32, number: u64) -> u32
    ensures { result ≡ fork_after code number }
{
    let low = (number % 0x1_0000_0000) as u32;
    code.wrapping_mul(FORK_FACTOR).wrapping_add(low)
}

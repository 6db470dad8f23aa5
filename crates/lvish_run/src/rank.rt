//! Which of the workers of a run one is.

ghost use Rattle.std.specs.Prelude.{◌≡◌, ◌<◌};

use crate::naming::Staff;
use std::marker::PhantomData;

/// The number of a worker of the run, from 0.
#[derive(Drop)]
pub struct Rank<B: Staff> {
    number: usize,
    of: PhantomData<B>,
    ghost ours: { number < B.workers },
}

impl<B: Staff> Rank<B> {
    /// The worker of this number.
    pub fn new(number: usize) -> Rank<B>
        requires { number < B.workers }
        ensures { result.number ≡ number }
    {
        Rank {
            number,
            of: PhantomData,
        }
    }

    /// Its number.
    #[inline(always)]
    pub fn number(&self) -> usize
        ensures number { result ≡ self.now.number }
        ensures ours { result < B.workers }
    {
        self.number
    }
}

use lvish_calculus::Program;
use lvish_lattice::{Lattice, Reads};
use lvish_task::{Local, ScriptCode};

/// A program that this crate runs.
pub trait Runnable: Program {
    /// Some program of this type, whichever it is. Proofs ask for one, and no run is of it.
    ghost blank: { Self };

    /// How many local statements a task has run before the request that it makes here.
    ///
    /// No report depends on it. Workers see by it whether a crew pays: where steps are all the work, one of them makes
    /// them alone. A program that counts nothing may answer a number that its author knows, the same everywhere, or 0.
    fn statements(&self, at: &Self::Local) -> usize;
}

impl Runnable for ScriptCode {
    ghost use Rattle.lvish_task.specs.NoCode.{no_code};

    ghost blank = { no_code };

    #[inline(always)]
    fn statements(&self, at: &Local) -> usize {
        at.statements()
    }
}

/// A program that several workers run: each part of it may go from one's thread to another's.
pub trait Shareable: Runnable<
    Lat: Send
        + Sync
        + Lattice<Event: Send + Sync>
        + Reads<Read: Send + Sync, Answer: Send + Sync, Spot: Send + Sync>,
    Local: Send + Sync,
>
    + Send
    + Sync {}

impl<P: Runnable + Send + Sync> Shareable for P
where
    P::Lat: Send + Sync,
    P::Local: Send + Sync,
    <P::Lat as Lattice>::Event: Send + Sync,
    <P::Lat as Reads>::Read: Send + Sync,
    <P::Lat as Reads>::Answer: Send + Sync,
    <P::Lat as Reads>::Spot: Send + Sync,
{}

ghost use Rattle.std.specs.Prelude.{◌≡◌, IfOk};
ghost use Rattle.lvish_lattice.specs.Lattice.{IsIdentity};
ghost use Rattle.lvish_calculus.specs.Program.{Functions, IsProgram, IsReplyTo};
ghost use Rattle.lvish_calculus.specs.declared.request.Reply.TheVariants.{Content};

use crate::request::{Reply, Request};
use lvish_lattice::{Lattice, Reads};
use std::alloc::{AllocError, Global};

/// A request, and the local state in which it is made.
#[derive(Drop)]
pub struct Asks<S, R, L> {
    pub request: Request<S, R, L>,
    pub at: L,
}

/// What tasks do, as a function of their local state, over LVars of one lattice.
///
/// Variables, pools and procedures are numbers, from 0.
pub trait Program {
    /// The states of the variables.
    type Lat: Reads;

    /// What a task carries from one request to the next.
    type Local: Eq + Drop;

    /// The program's functions, which the methods compute.
    ghost functions: { Self → Functions Self.Lat Self.Lat.Event Self.Lat.Read Self.Lat.Answer Self.Local };

    /// The number of variables.
    fn variables(&self) -> usize
        ensures { result ≡ (functions self.now).variables };

    /// The variable of a pool, `None` where there is no such pool.
    fn pool_variable(&self, pool: usize) -> Option<usize>
        ensures { result ≡ (functions self.now).pool_variable pool };

    /// The local state in which `main` starts.
    fn start(&self, alloc: Global) -> Result<Self::Local, AllocError>
        ensures { IfOk result (λ l. l ≡ (functions self.now).start) };

    /// The local state in which a handler's procedure starts on an event.
    fn start_handler(
        &self,
        alloc: Global,
        procedure: usize,
        event: &<Self::Lat as Lattice>::Event,
    ) -> Result<Self::Local, AllocError>
        ensures { IfOk result (λ l. l ≡ (functions self.now).start_handler procedure event.now) };

    /// An equal local state.
    fn copy_local(&self, alloc: Global, local: &Self::Local) -> Result<Self::Local, AllocError>
        ensures { IfOk result (λ l. l ≡ local.now) };

    /// Runs to the next request: the request, and the local state in which it is made.
    fn ask(
        &self,
        alloc: Global,
        local: &Self::Local,
    ) -> Result<Asks<Self::Lat, <Self::Lat as Reads>::Read, Self::Local>, AllocError>
        ensures request { IfOk result (λ a. a.request ≡ (functions self.now).request local.now) }
        ensures at { IfOk result (λ a. a.at ≡ (functions self.now).at local.now) };

    /// What [`ask`](Program::ask) answers. It may lie in the memory of `spare`, a local state that
    /// nobody needs any more.
    fn ask_with(
        &self,
        alloc: Global,
        local: &Self::Local,
        spare: Option<Self::Local>,
    ) -> Result<Asks<Self::Lat, <Self::Lat as Reads>::Read, Self::Local>, AllocError>
        ensures request { IfOk result (λ a. a.request ≡ (functions self.now).request local.now) }
        ensures at { IfOk result (λ a. a.at ≡ (functions self.now).at local.now) }
    {
        drop(spare);
        self.ask(alloc, local)
    }

    /// The local state after the request that `at` makes, and its reply. It may lie in the memory of
    /// `at`.
    fn resume(
        &self,
        alloc: Global,
        at: Self::Local,
        reply: Reply<Self::Lat, <Self::Lat as Reads>::Answer>,
    ) -> Result<Self::Local, AllocError>
        requires { IsReplyTo ((functions self.now).request at) reply }
        ensures { IfOk result (λ l. l ≡ (functions self.now).resume at reply) };

    /// The local state after the freeze that `at` asks for, whose reply is this content: without a copy
    /// of it, where the program needs none. It may lie in the memory of `at`.
    fn resume_on(
        &self,
        alloc: Global,
        at: Self::Local,
        content: &Self::Lat,
    ) -> Result<Self::Local, AllocError>
        requires { IsReplyTo {A = Self.Lat.Answer} ((functions self.now).request at) (Content content.now) }
        ensures { IfOk result (λ l. l ≡ (functions self.now).resume at (Content content.now)) }
    {
        let content = content.copy(alloc)?;
        self.resume(alloc, at, Reply::Content(content))
    }

    ghost identical: { IsIdentity Self.Local.eq };

    ghost lawful: { (p : Self) → IsProgram Self.Lat.joined Self.Lat.member (functions p) };
}

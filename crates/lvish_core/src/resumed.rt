//! What a task goes on with after a reply.

ghost use Rattle.std.specs.Prelude.{◌≡◌, IfOk};
ghost use Rattle.lvish_calculus.specs.Calculus.{Live};
ghost use Rattle.lvish_calculus.specs.Program.{IsReplyTo};
ghost use Rattle.lvish_calculus.specs.declared.request.Reply.TheVariants.{Content};
ghost use Rattle.lvish_core.specs.Tasks.{standing};

use crate::stage::{Stage, TaskNumbers};
use lvish_calculus::{Program, Reply};
use lvish_lattice::Reads;
use std::alloc::{AllocError, Global};

/// The stage in which the task goes on with these numbers, and a copy of its local state there.
#[inline(always)]
pub(crate) fn resumed<P: Program>(
    program: &P,
    alloc: Global,
    at: P::Local,
    reply: Reply<P::Lat, <P::Lat as Reads>::Answer>,
    numbers: TaskNumbers,
) -> Result<(Stage<P::Local>, P::Local), AllocError>
    // A task asks there, and the reply fits what it asks: two clauses, since the proof of a call takes
    // 20 seconds longer at a single one.
    requires asks { (l : P.Local) × (at ≡ (P.functions program.now).at l) }
    requires fits { IsReplyTo ((P.functions program.now).request at) reply }
    ensures stage { IfOk result (λ r. standing r.0 ≡ Live ((P.functions program.now).resume at reply) numbers.forks numbers.adds numbers.puts) }
    ensures own { IfOk result (λ r. r.1 ≡ (P.functions program.now).resume at reply) }
{
    let local = program.resume(alloc, at, reply)?;
    let own = program.copy_local(alloc, &local)?;
    Ok((Stage::live(local, numbers), own))
}

/// The same, where the reply is the content of a frozen variable.
pub(crate) fn resumed_on<P: Program>(
    program: &P,
    alloc: Global,
    at: P::Local,
    content: &P::Lat,
    numbers: TaskNumbers,
) -> Result<(Stage<P::Local>, P::Local), AllocError>
    requires asks { (l : P.Local) × (at ≡ (P.functions program.now).at l) }
    requires fits { IsReplyTo {A = P.Lat.Answer} ((P.functions program.now).request at) (Content content.now) }
    ensures stage { IfOk result (λ r. standing r.0 ≡ Live ((P.functions program.now).resume at (Content content.now)) numbers.forks numbers.adds numbers.puts) }
    ensures own { IfOk result (λ r. r.1 ≡ (P.functions program.now).resume at (Content content.now)) }
{
    let local = program.resume_on(alloc, at, content)?;
    let own = program.copy_local(alloc, &local)?;
    Ok((Stage::live(local, numbers), own))
}

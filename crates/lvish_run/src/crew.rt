//! The workers of a crew on their threads.

ghost use Rattle.std.specs.Prelude.{◌≡◌, ◌≢◌, Ok, true};
ghost use Rattle.lvish_run.specs.Crew.{MayLeave};
ghost use Rattle.lvish_run.specs.declared.leave.Leave.TheVariants.{Stopped};

use crate::leave::Leave;
use crate::shift::Shift;
use std::alloc::{AllocError, Global};
use std::marker::PhantomData;
use std::sync::Wait;
use std::thread;
use std::thread::{Promise, PromisedHandle, Threads};

/// A worker leaves as it may at its gate.
#[derive(Drop)]
pub struct Patience<S: Shift> {
    of: PhantomData<S>,
}

impl<S: Shift> Promise<Leave> for Patience<S> {
    ghost use Rattle.lvish_run.specs.Crew.{MayLeave};

    ghost kept_by = { λ p r. MayLeave S.patient r };
}

/// Runs one worker on this thread, and the others on threads of their own, and joins them. Answers why they
/// left; where they say different things, what hinders the run most.
pub fn run_workers<S: Shift + Send, R: Threads + Wait + Sync>(
    rt: &R,
    alloc: Global,
    mine: S,
    others: Vec<S>,
) -> Result<Leave, AllocError>
    ensures patient { S.patient ≡ true → result ≢ Ok Stopped }
{
    let mut others = others;
    let mut handles = Vec::with_capacity(alloc, others.len())?;
    thread::scope(
        thread::scope_env(),
        rt,
        |scope| -> Result<Leave, AllocError>
            ensures patient { S.patient ≡ true → result ≢ Ok Stopped }
        {
            let mut worst = Leave::Over;
            while let Some(shift) = others.pop() {
                let theirs = move || -> Leave
                    ensures { MayLeave S.patient result }
                { shift.work() };
                match scope.spawn_with(Patience::<S> { of: PhantomData }, theirs) {
                    Ok(handle) => handles.push(handle)?,
                    Err(_refused) => {
                        worst = Leave::Missing;
                        mine.close();
                    }
                }
            }
            let mine = mine.work();
            Ok(worst_of(rt, handles, worst.or_worse(mine)))
        },
    )
}

/// Joins the threads. Answers what hinders the run most, of this and what they give back.
fn worst_of<R: Threads, S: Shift>(
    rt: &R,
    handles: Vec<PromisedHandle<Leave, Patience<S>>>,
    mut worst: Leave,
) -> Leave
    requires { S.patient ≡ true → worst ≢ Stopped }
    ensures { S.patient ≡ true → result ≢ Stopped }
{
    for handle in handles {
        worst = worst.or_worse(handle.join(rt));
    }
    worst
}

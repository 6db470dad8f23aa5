//! A task's action, by its request.

ghost use Rattle.std.specs.Prelude.{◌≡◌, ◌≢◌, ◌<◌, ◌⊎◌, IfErr, Some};
ghost use Rattle.lvish_core.specs.Acts.{IsAsked, ActsIfReady};
ghost use Rattle.lvish_core.specs.Tasks.{IsAt};

use super::Core;
use crate::fault::{StepFault, Stepped};
use crate::limits::MOST_PROGRAM_STEPS;
use crate::moved::Moved;
use crate::stage::TaskNumbers;
use lvish_calculus::{Meaning, Program, Reply, Request};
use lvish_lattice::{Lattice, Reads};
use lvish_names::TaskName;
use std::alloc::Global;

impl<'p, P: Program> Core<'p, P> {
    /// Makes the request of a task, where it is ready. A local state that isn't used up is left in its
    /// place.
    pub(super) fn act(
        &mut self,
        alloc: Global,
        name: &TaskName<<P::Lat as Lattice>::Event>,
        at: P::Local,
        numbers: TaskNumbers,
        request: &Request<P::Lat, <P::Lat as Reads>::Read, P::Local>,
        left: &mut Option<P::Local>,
    ) -> Result<(Stepped, Moved<<P::Lat as Lattice>::Event, P::Local>), StepFault>
        requires room { self.old.steps < MOST_PROGRAM_STEPS }
        requires asked { IsAsked (⟦<P as Meaning>⟧.machine self.old.program) self.old name.now at numbers.forks numbers.adds numbers.puts request.now }
        requires there { IsAt self.old.table.tasks numbers.index name.now }
        ensures acts { ActsIfReady (⟦<P as Meaning>⟧.machine self.old.program) self.old name.now request.now self.new result }
        ensures left { (left.new ≡ Some at) ⊎ (left.new ≡ left.old) }
        ensures unused { IfErr result (λ e. e ≢ StepFault.Memory → left.new ≡ Some at) }
    {
        match request {
            Request::Put(variable, state) => {
                self.put(alloc, name, at, numbers, *variable, state)
            }
            Request::Get(variable, read) => {
                self.get(alloc, name, at, numbers, *variable, read, left)
            }
            Request::Fork(child) => self.fork(alloc, name, at, numbers, child),
            Request::Add(pool, procedure) => {
                self.add(alloc, name, at, numbers, *pool, *procedure)
            }
            Request::Freeze(variable, _) => {
                if !self.is_ready(request) {
                    *left = Some(at);
                    return Err(StepFault::NotEnabled);
                }
                self.freeze(alloc, name, at, numbers, *variable)
            }
            Request::Pause => self.go_on(alloc, name, at, numbers, Reply::Done),
            Request::End => self.end(name, at, numbers, left),
            Request::Fault(kind) => {
                *left = Some(at);
                self.fail(name, *kind, None)
            }
        }
    }
}

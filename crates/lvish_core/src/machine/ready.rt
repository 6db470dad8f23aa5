//! Whether a request can be made.

ghost use Rattle.std.specs.Prelude.{◌≡◌, ◌↔◌, ◌<◌, ◌≤◌, ℕ, List, Some, Contains, IsTrue, IfOk};
ghost use Rattle.lvish_calculus.specs.declared.request.Request.TheVariants.{Get, Freeze};
ghost use Rattle.lvish_calculus.specs.Calculus.{IsReady, IsReadyTask};
ghost use Rattle.lvish_core.specs.Core.{state};
ghost use Rattle.lvish_core.specs.Tasks.{standing};

use super::Core;
use crate::limits::MOST_PROGRAM_STEPS;
use crate::stage::Stage;
use lvish_calculus::{Meaning, Program, Request};
use lvish_lattice::{Lattice, Reads};
use lvish_picture::laws::freezes_by_counts;
use std::alloc::{AllocError, Global};

impl<'p, P: Program> Core<'p, P> {
    /// Whether no further step is made.
    pub(super) fn is_full(&self) -> bool
        ensures { IsTrue result ↔ (MOST_PROGRAM_STEPS ≤ self.now.steps) }
    {
        self.steps >= MOST_PROGRAM_STEPS
    }

    /// Whether the request of a task can be made: a get has its answer; for a freeze every cursor
    /// is at the log's end and no task runs in the pools; any other request always can.
    pub(super) fn is_ready(
        &self,
        request: &Request<P::Lat, <P::Lat as Reads>::Read, P::Local>,
    ) -> bool
        requires gets { (v : ℕ) (r : P.Lat.Read) → request.now ≡ Get v r → v < (P.functions self.now.program).variables }
        requires freezes { (v : ℕ) (pools : List ℕ) → request.now ≡ Freeze v pools → (v < (P.functions self.now.program).variables) × ((k : ℕ) → Contains pools k → (P.functions self.now.program).pool_variable k ≡ Some v) }
        ensures { IsTrue result ↔ IsReady (⟦<P as Meaning>⟧.machine self.now.program) (state (⟦<P as Meaning>⟧.machine self.now.program) self.now) request.now }
    {
        freezes_by_counts::<P>();
        match request {
            Request::Get(variable, read) => self.variables[*variable].read(read).is_some(),
            Request::Freeze(variable, pools) => {
                let handlers = &self.handlers[*variable];
                handlers.drained(&self.variables[*variable]) && handlers.ended(pools.as_slice())
            }
            _ => true,
        }
    }

    /// Whether a step of what runs at this stage can be made.
    pub(super) fn is_at_ready(
        &self,
        alloc: Global,
        stage: &Stage<P::Local>,
    ) -> Result<bool, AllocError>
        ensures { IfOk result (λ b. IsTrue b ↔ IsReadyTask (⟦<P as Meaning>⟧.machine self.now.program) (state (⟦<P as Meaning>⟧.machine self.now.program) self.now) (standing stage.now)) }
    {
        match stage {
            Stage::Live { local, .. } => {
                let asks = self.program.ask(alloc, local)?;
                Ok(self.is_ready(&asks.request))
            }
            Stage::Ended => Ok(false),
        }
    }
}

//! A task's step.

ghost use Rattle.std.specs.Prelude.{◌≡◌, ◌≢◌, ◌⊎◌, MatchResult, IfOk, IfErr, IsSome, Some, None};
ghost use Rattle.lvish_calculus.specs.declared.label.Label.TheVariants.{Act};

use super::Core;
use crate::core_meaning::CoreMeaning;
use crate::fault::{StepFault, Stepped};
use crate::limits::MOST_PROGRAM_STEPS;
use crate::moved::Moved;
use crate::stage::{Stage, TaskNumbers};
use lvish_calculus::{Asks, Meaning, Program, Request};
use lvish_lattice::{Lattice, Reads};
use lvish_names::TaskName;
use std::alloc::Global;

impl<'p, P: Program> Core<'p, P> {
    /// Makes the task's step, with its request already computed.
    ///
    /// # Errors
    ///
    /// As `step` with the task's label.
    pub fn step_asked(
        &mut self,
        alloc: Global,
        name: &TaskName<<P::Lat as Lattice>::Event>,
        asks: &Asks<P::Lat, <P::Lat as Reads>::Read, P::Local>,
    ) -> Result<(Stepped, Moved<<P::Lat as Lattice>::Event, P::Local>), StepFault>
        requires request { ⟦<P as CoreMeaning>⟧.is_its_request self.old name.now asks.now.request }
        requires at { ⟦<P as CoreMeaning>⟧.is_its_place self.old name.now asks.now.at }
        ensures stepped { MatchResult result (λ s. ⟦<P as CoreMeaning>⟧.is_step self.old (Act name.now) self.new s.0) (λ e. ⟦<P as CoreMeaning>⟧.is_refused self.old (Act name.now) e × (self.new ≡ self.old)) }
        ensures moved { IfOk result (λ s. ⟦<P as CoreMeaning>⟧.is_moved self.old (Act name.now) s.1) }
    {
        self.index_names();
        self.step_found(alloc, name, asks)
    }

    /// The same, with the task looked up in the index as it stands.
    fn step_found(
        &mut self,
        alloc: Global,
        name: &TaskName<<P::Lat as Lattice>::Event>,
        asks: &Asks<P::Lat, <P::Lat as Reads>::Read, P::Local>,
    ) -> Result<(Stepped, Moved<<P::Lat as Lattice>::Event, P::Local>), StepFault>
        requires request { ⟦<P as CoreMeaning>⟧.is_its_request self.old name.now asks.now.request }
        requires at { ⟦<P as CoreMeaning>⟧.is_its_place self.old name.now asks.now.at }
        ensures stepped { MatchResult result (λ s. ⟦<P as CoreMeaning>⟧.is_step self.old (Act name.now) self.new s.0) (λ e. ⟦<P as CoreMeaning>⟧.is_refused self.old (Act name.now) e × (self.new ≡ self.old)) }
        ensures moved { IfOk result (λ s. ⟦<P as CoreMeaning>⟧.is_moved self.old (Act name.now) s.1) }
    {
        let Some(
            (
                index,
                Stage::Live {
                    forks,
                    adds,
                    puts,
                    ..
                },
            ),
        ) = self.tasks.find(name)
        else {
            return Err(StepFault::NotEnabled);
        };
        let numbers = TaskNumbers {
            index,
            forks: *forks,
            adds: *adds,
            puts: *puts,
        };
        let mut at = Some(self.program.copy_local(alloc, &asks.at)?);
        self.step_live(alloc, name, numbers, &asks.request, &mut at)
    }

    /// Makes the task's step, with its numbers and its request already known. The local state in which
    /// it asks is used up, or left as it was.
    ///
    /// # Errors
    ///
    /// As `step` with the task's label. The local state is left as it was, but at `Memory`: a put, a fork
    /// or another act may have used it up by then, and the task asks anew.
    #[inline(always)]
    pub fn step_live(
        &mut self,
        alloc: Global,
        name: &TaskName<<P::Lat as Lattice>::Event>,
        numbers: TaskNumbers,
        request: &Request<P::Lat, <P::Lat as Reads>::Read, P::Local>,
        at: &mut Option<P::Local>,
    ) -> Result<(Stepped, Moved<<P::Lat as Lattice>::Event, P::Local>), StepFault>
        requires live { (local : P.Local) × ⟦<P as CoreMeaning>⟧.is_live self.old name.now local numbers }
        requires request { ⟦<P as CoreMeaning>⟧.is_its_request self.old name.now request.now }
        requires there { IsSome at.old }
        requires at { (l : P.Local) → at.old ≡ Some l → ⟦<P as CoreMeaning>⟧.is_its_place self.old name.now l }
        ensures stepped { MatchResult result (λ s. ⟦<P as CoreMeaning>⟧.is_step self.old (Act name.now) self.new s.0) (λ e. ⟦<P as CoreMeaning>⟧.is_refused self.old (Act name.now) e × (self.new ≡ self.old)) }
        ensures moved { IfOk result (λ s. ⟦<P as CoreMeaning>⟧.is_moved self.old (Act name.now) s.1) }
        ensures left { (at.new ≡ at.old) ⊎ (at.new ≡ None) }
        // A step that can't be made, or would be one too many, uses nothing up.
        ensures unused { IfErr result (λ e. e ≢ StepFault.Memory → at.new ≡ at.old) }
    {
        if self.fault.is_some() {
            return Err(StepFault::NotEnabled);
        }
        if self.steps >= MOST_PROGRAM_STEPS {
            return Err(self.fault_at_the_most(name, request));
        }
        let Some(local) = at.take() else {
            unreachable!()
        };
        self.act(alloc, name, local, numbers, request, at)
    }

    /// Why a task's step isn't made after the most steps: the task is blocked, or would be one too many.
    fn fault_at_the_most(
        &self,
        name: &TaskName<<P::Lat as Lattice>::Event>,
        request: &Request<P::Lat, <P::Lat as Reads>::Read, P::Local>,
    ) -> StepFault
        requires most { self.now.steps ≡ MOST_PROGRAM_STEPS }
        requires there { IsSome (⟦<P as CoreMeaning>⟧.local_in self.now name.now) }
        requires request { ⟦<P as CoreMeaning>⟧.is_its_request self.now name.now request.now }
        ensures { ⟦<P as CoreMeaning>⟧.is_refused self.now (Act name.now) result }
    {
        if self.can_act(name, request) {
            StepFault::Full
        } else {
            StepFault::NotEnabled
        }
    }
}

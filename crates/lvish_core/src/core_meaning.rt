use lvish_calculus::{Label, Meaning, Program, Request};
use lvish_lattice::Lattice;
use lvish_names::{HandlerName, TaskName};
use lvish_variable::Variable;

/// What contracts say of a program's cores.
pub trait CoreMeaning: Program {
    ghost use Rattle.std.specs.Prelude.{ℕ, List, Option};
    ghost use Rattle.lvish_calculus.specs.declared.label.Label.{Label};
    ghost use Rattle.lvish_calculus.specs.declared.request.Request.{Request};
    ghost use Rattle.lvish_calculus.specs.Calculus.{Configuration};
    ghost use Rattle.lvish_names.specs.Names.{Name, Handler};
    ghost use Rattle.lvish_variable.specs.Variable.{VariableView as Variable};
    ghost use Rattle.lvish_handlers.specs.declared.held.Held.{Held};
    ghost use Rattle.lvish_core.specs.Core.{CoreView};
    ghost use Rattle.lvish_core.specs.declared.fault.Stepped.{Stepped};
    ghost use Rattle.lvish_core.specs.declared.fault.StepFault.{StepFault};
    ghost use Rattle.lvish_core.specs.declared.moved.Moved.{Moved};
    ghost use Rattle.lvish_core.specs.declared.stage.TaskNumbers.{TaskNumbers};

    /// The configuration that a core stands for.
    ghost picture: { CoreView Self Self.Lat Self.Lat.Event Self.Local → Configuration Self.Lat Self.Lat.Event Self.Local };

    /// A core run of as many labels as the core's steps leads to its picture.
    ghost is_reached: { CoreView Self Self.Lat Self.Lat.Event Self.Local → Type 0 };

    /// These labels are such a run.
    ghost is_run_to: { CoreView Self Self.Lat Self.Lat.Event Self.Local → List (Label Self.Lat.Event) → Type 0 };

    /// A core at the start.
    ghost is_begun: { Self → CoreView Self Self.Lat Self.Lat.Event Self.Local → Type 0 };

    /// The core makes a step with the label: it is enabled in the picture, and hands no event but
    /// the log's next.
    ghost can_take: { CoreView Self Self.Lat Self.Lat.Event Self.Local → Label Self.Lat.Event → Type 0 };

    /// The second core is the first after one step with the label.
    ghost is_step: { CoreView Self Self.Lat Self.Lat.Event Self.Local → Label Self.Lat.Event → CoreView Self Self.Lat Self.Lat.Event Self.Local → Stepped → Type 0 };

    /// What the step with the label moves, in the calculus.
    ghost is_moved: { CoreView Self Self.Lat Self.Lat.Event Self.Local → Label Self.Lat.Event → Moved Self.Lat.Event Self.Local → Type 0 };

    /// Why a step with the label isn't made.
    ghost is_refused: { CoreView Self Self.Lat Self.Lat.Event Self.Local → Label Self.Lat.Event → StepFault → Type 0 };

    /// The labels that the core can take, in their order.
    ghost are_labels: { CoreView Self Self.Lat Self.Lat.Event Self.Local → List (Label Self.Lat.Event) → Type 0 };

    /// The picture is an end without an error.
    ghost is_ended: { CoreView Self Self.Lat Self.Lat.Event Self.Local → Type 0 };

    /// Where the task is there and hasn't ended, this is its request.
    ghost is_its_request: { CoreView Self Self.Lat Self.Lat.Event Self.Local → Name Self.Lat.Event → Request Self.Lat Self.Lat.Read Self.Local → Type 0 };

    /// Where the task is there and hasn't ended, this is the local state in which it asks.
    ghost is_its_place: { CoreView Self Self.Lat Self.Lat.Event Self.Local → Name Self.Lat.Event → Self.Local → Type 0 };

    /// The local state of the picture's task, if it is there and hasn't ended.
    ghost local_in: { CoreView Self Self.Lat Self.Lat.Event Self.Local → Name Self.Lat.Event → Option Self.Local };

    /// The picture's task is there in this local state, with these numbers, and hasn't ended.
    ghost is_live: { CoreView Self Self.Lat Self.Lat.Event Self.Local → Name Self.Lat.Event → Self.Local → TaskNumbers → Type 0 };

    /// The request of the picture's task, if it is there and hasn't ended.
    ghost request_in: { CoreView Self Self.Lat Self.Lat.Event Self.Local → Name Self.Lat.Event → Option (Request Self.Lat Self.Lat.Read Self.Local) };

    /// The log's entry that the handler is handed next.
    ghost is_next: { CoreView Self Self.Lat Self.Lat.Event Self.Local → Handler Self.Lat.Event → Self.Lat.Event → Type 0 };

    /// The picture has a handler of this name.
    ghost is_held: { CoreView Self Self.Lat Self.Lat.Event Self.Local → Handler Self.Lat.Event → Type 0 };

    /// Every handler was handed the whole log of its variable.
    ghost are_drained: { CoreView Self Self.Lat Self.Lat.Event Self.Local → Type 0 };

    /// Every handler on the variable of this number, if there is one, was handed its whole log.
    ghost is_drained_at: { CoreView Self Self.Lat Self.Lat.Event Self.Local → ℕ → Type 0 };

    /// This many tasks of the picture haven't ended.
    ghost has_running: { CoreView Self Self.Lat Self.Lat.Event Self.Local → ℕ → Type 0 };

    /// The picture's variables.
    ghost are_states: { CoreView Self Self.Lat Self.Lat.Event Self.Local → List (Variable Self.Lat Self.Lat.Event) → Type 0 };

    /// The picture's handlers on the variable of this number.
    ghost are_handlers: { CoreView Self Self.Lat Self.Lat.Event Self.Local → ℕ → List (Held Self.Lat.Event) → Type 0 };
}

impl<P: Program> CoreMeaning for P {
    ghost use Rattle.std.specs.Prelude.{option_map, IsSome};
    ghost use Rattle.lvish_calculus.specs.Calculus.{IsEnded};
    ghost use Rattle.lvish_core.specs.Core.{picture, state, IsReached, IsRunTo, IsBegun, CanTake, IsStep, IsStepRefused, IsNext};
    ghost use Rattle.lvish_core.specs.Changes.{IsMoved, local_of};
    ghost use Rattle.lvish_core.specs.Reads.{IsItsRequest, IsItsPlace, IsLiveAt, HasRunning, AreStates, AreHandlers, AreDrained, IsDrainedAt};
    ghost use Rattle.lvish_core.specs.Labels.{AreLabels};

    ghost picture = { λ c. picture (⟦<P as Meaning>⟧.machine c.program) c };

    ghost is_reached = { λ c. IsReached (⟦<P as Meaning>⟧.machine c.program) c };

    ghost is_run_to = { λ c xs. IsRunTo (⟦<P as Meaning>⟧.machine c.program) c xs };

    ghost is_begun = { λ p c. IsBegun (⟦<P as Meaning>⟧.machine p) p c };

    ghost can_take = { λ c l. CanTake (⟦<P as Meaning>⟧.machine c.program) c l };

    ghost is_step = { λ c l d s. IsStep (⟦<P as Meaning>⟧.machine c.program) c l d s };

    ghost is_moved = { λ c l m. IsMoved (⟦<P as Meaning>⟧.machine c.program) (state (⟦<P as Meaning>⟧.machine c.program) c) l m };

    ghost is_refused = { λ c l e. IsStepRefused (⟦<P as Meaning>⟧.machine c.program) c l e };

    ghost are_labels = { λ c ls. AreLabels P.Lat.Event.cmp (⟦<P as Meaning>⟧.machine c.program) c ls };

    ghost is_ended = { λ c. IsEnded (⟦<P as Meaning>⟧.machine c.program) (picture (⟦<P as Meaning>⟧.machine c.program) c) };

    ghost is_its_request = { λ c t r. IsItsRequest (⟦<P as Meaning>⟧.machine c.program) c t r };

    ghost is_its_place = { λ c t at. IsItsPlace (⟦<P as Meaning>⟧.machine c.program) c t at };

    ghost local_in = { λ c t. local_of ((state (⟦<P as Meaning>⟧.machine c.program) c).tasks t) };

    ghost is_live = { λ c t l n. IsLiveAt (⟦<P as Meaning>⟧.machine c.program) c t l n };

    ghost request_in = { λ c t. option_map (P.functions c.program).request (local_of ((state (⟦<P as Meaning>⟧.machine c.program) c).tasks t)) };

    ghost is_next = { λ c h e. IsNext P.Lat.Event.eq c.table h e };

    ghost is_held = { λ c h. IsSome ((state (⟦<P as Meaning>⟧.machine c.program) c).handlers h) };

    ghost are_drained = { λ c. AreDrained c.table };

    ghost is_drained_at = { λ c v. IsDrainedAt c.table v };

    ghost has_running = { λ c n. HasRunning (⟦<P as Meaning>⟧.machine c.program) c n };

    ghost are_states = { λ c xs. AreStates (⟦<P as Meaning>⟧.machine c.program) (P.functions c.program).variables c xs };

    ghost are_handlers = { λ c v held. AreHandlers (⟦<P as Meaning>⟧.machine c.program) c v held };
}

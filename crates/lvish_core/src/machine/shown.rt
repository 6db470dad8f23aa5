//! What a core shows by reference or number.

ghost use Rattle.std.specs.Prelude.{◌≡◌, ◌<◌, ◌↔◌, Some, None, IfSome, IsTrue, IsFalse, MatchOption, length, option_copied, slice_get};
ghost use Rattle.lvish_names.specs.Names.{Name};
ghost use Rattle.lvish_handlers.specs.Handlers.{IsByName};
ghost use Rattle.lvish_core.specs.Tasks.{HasEachOnce, IsAt, task_names};
ghost use Rattle.lvish_core.specs.declared.stage.TaskNumbers.{TaskNumbers};
ghost use Rattle.lvish_core.specs.Blocked.{NoneFreezes};

use super::Core;
use crate::core_meaning::CoreMeaning;
use crate::drained::{are_drained, is_drained_at};
use crate::fault::RunError;
use crate::handler_place::HandlerSeat;
use crate::stage::{Stage, TaskNumbers};
use crate::touched::Touched;
use lvish_calculus::laws::lawful;
use lvish_calculus::{Meaning, Program};
use lvish_handlers::Held;
use lvish_lattice::Lattice;
use lvish_names::{HandlerName, TaskName};
use lvish_picture::laws::{drained_at_the_end, handlers_are_held};
use lvish_variable::Variable;

impl<'p, P: Program> Core<'p, P> {
    /// The program that it runs.
    pub fn program(&self) -> &P
        ensures { result.now ≡ self.now.program }
    {
        self.program
    }

    /// No task is there under two indices.
    pub fn each_task_once(&self)
        ensures { HasEachOnce self.now.table.tasks }
    {
        self.tasks.each_once();
    }

    /// Makes the index of the tasks' names whole, so that the calls that find a task by its name don't
    /// look at each task that came since. Where there is no room for it, they still find each task. What
    /// it brings is time alone, which no contract sees.
    pub fn index_names(&mut self)
        ensures { self.new ≡ self.old }
    {
        self.tasks.index_names();
    }

    /// The task's local state; `None` where it has ended or isn't there.
    pub fn local_of(&self, name: &TaskName<<P::Lat as Lattice>::Event>) -> Option<&P::Local>
        ensures { option_copied result ≡ ⟦<P as CoreMeaning>⟧.local_in self.now name.now }
    {
        match self.tasks.get(name) {
            Some(Stage::Live { local, .. }) => Some(local),
            _ => None,
        }
    }

    /// The task's local state and its numbers; `None` where it has ended or isn't there.
    pub fn standing_of(
        &self,
        name: &TaskName<<P::Lat as Lattice>::Event>,
    ) -> Option<(&P::Local, TaskNumbers)>
        ensures { MatchOption result (⟦<P as CoreMeaning>⟧.local_in self.now name.now ≡ None) (λ s. ⟦<P as CoreMeaning>⟧.is_live self.now name.now s.0.now s.1) }
    {
        match self.tasks.find(name) {
            Some(
                (
                    index,
                    Stage::Live {
                        local,
                        forks,
                        adds,
                        puts,
                    },
                ),
            ) => {
                let numbers = TaskNumbers {
                    index,
                    forks: *forks,
                    adds: *adds,
                    puts: *puts,
                };
                Some((local, numbers))
            }
            _ => None,
        }
    }

    /// The event that the handler is handed next; `None` where it was handed the whole log or
    /// isn't there.
    pub fn next(
        &self,
        name: &HandlerName<<P::Lat as Lattice>::Event>,
    ) -> Option<<P::Lat as Lattice>::Event>
        ensures { MatchOption result ((e : P.Lat.Event) → ⟦<P as CoreMeaning>⟧.is_next self.now name.now e → ⊥) (λ e. ⟦<P as CoreMeaning>⟧.is_next self.now name.now e) }
    {
        lawful::<P>();
        handlers_are_held::<P>();
        let Some(HandlerSeat { variable, at }) = self.seat_of(name) else {
            return None;
        };
        self.handlers[variable].next_at(&self.variables[variable], at)
    }

    /// Whether an event comes next for the handler.
    #[inline(always)]
    pub fn has_next(&self, name: &HandlerName<<P::Lat as Lattice>::Event>) -> bool
        ensures { IsTrue result ↔ ((e : P.Lat.Event) × ⟦<P as CoreMeaning>⟧.is_next self.now name.now e) }
    {
        lawful::<P>();
        handlers_are_held::<P>();
        match self.last_handed() {
            Some((HandlerSeat { variable, at }, last)) if last.name == *name =>
                self.handlers[variable]
                    .next_at(&self.variables[variable], at)
                    .is_some(),
            _ => self.next(name).is_some(),
        }
    }

    /// Whether there is a handler of this name.
    pub fn holds(&self, name: &HandlerName<<P::Lat as Lattice>::Event>) -> bool
        ensures { IsTrue result ↔ ⟦<P as CoreMeaning>⟧.is_held self.now name.now }
    {
        self.places.get(name).is_some()
    }

    /// Whether every handler was handed the whole log of its variable.
    pub fn is_drained(&self) -> bool
        ensures { IsTrue result ↔ ⟦<P as CoreMeaning>⟧.are_drained self.now }
    {
        are_drained(&self.variables, &self.handlers)
    }

    /// Whether every handler on the variable was handed the whole log, or there is no such variable.
    pub fn is_drained_at(&self, variable: usize) -> bool
        ensures drained { IsTrue result ↔ ⟦<P as CoreMeaning>⟧.is_drained_at self.now variable }
        // Until then no freeze of the variable can be made.
        ensures freezes { IsFalse result → NoneFreezes (⟦<P as Meaning>⟧.machine self.now.program) self.now variable }
    {
        lawful::<P>();
        drained_at_the_end::<P>();
        is_drained_at(&self.variables, &self.handlers, variable)
    }

    /// The variable's handlers, by name.
    pub fn handlers(&self, variable: usize) -> &[Held<<P::Lat as Lattice>::Event>]
        requires { variable < (P.functions self.now.program).variables }
        ensures are { ⟦<P as CoreMeaning>⟧.are_handlers self.now variable result.now }
        ensures by_name { IsByName P.Lat.Event.cmp result.now }
    {
        lawful::<P>();
        handlers_are_held::<P>();
        self.handlers[variable].held()
    }

    /// The number of tasks that haven't ended; where there is an error, of those before it.
    pub fn running(&self) -> usize
        ensures { ⟦<P as CoreMeaning>⟧.has_running self.now result }
    {
        self.running
    }

    /// The variables; where there is an error, as they were before it.
    pub fn states(&self) -> &[Variable<P::Lat>]
        ensures { ⟦<P as CoreMeaning>⟧.are_states self.now result.now }
    {
        &self.variables
    }

    /// How many tasks there are, with those that have ended: the index of the next one.
    pub fn tasks(&self) -> usize
        ensures { result ≡ length self.now.table.tasks }
    {
        self.tasks.len()
    }

    /// The name of the task at the index.
    pub fn name_at(&self, index: usize) -> Option<&TaskName<<P::Lat as Lattice>::Event>>
        ensures { option_copied result ≡ slice_get (task_names self.now.table.tasks) index }
    {
        self.tasks.name_at(index)
    }

    /// The numbers of the task at the index, as long as it hasn't ended; `None` where there is none.
    #[inline(always)]
    pub fn numbers_at(&self, index: usize) -> Option<TaskNumbers>
        // They are those of the task that stands there.
        ensures live { (t : Name P.Lat.Event) (l : P.Local) → IsAt self.now.table.tasks index t → ⟦<P as CoreMeaning>⟧.local_in self.now t ≡ Some l → (n : TaskNumbers) × (result ≡ Some n) × ⟦<P as CoreMeaning>⟧.is_live self.now t l n }
        // There are numbers only where one stands there.
        ensures some { IfSome result (λ n. (n.index ≡ index) × ((t : Name P.Lat.Event) × (l : P.Local) × ⟦<P as CoreMeaning>⟧.is_live self.now t l n)) }
    {
        match self.tasks.stage_at(index)? {
            Stage::Live {
                local: _,
                forks,
                adds,
                puts,
            } => Some(TaskNumbers {
                index,
                forks: *forks,
                adds: *adds,
                puts: *puts,
            }),
            Stage::Ended => None,
        }
    }

    /// The frozen variables, in the order in which they were first frozen.
    pub fn freezes(&self) -> &[usize]
        ensures { result.now ≡ self.now.freezes }
    {
        &self.freezes
    }

    /// The variables, the names of the tasks, each at its task's index, and the frozen variables in the
    /// order of their first freezes, without a copy; where there is an error, as they were before it.
    pub fn into_parts(
        self,
    ) -> (
        Vec<Variable<P::Lat>>,
        Vec<TaskName<<P::Lat as Lattice>::Event>>,
        Vec<usize>,
    )
        ensures states { ⟦<P as CoreMeaning>⟧.are_states self.entry result.0.items }
        ensures names { result.1.items ≡ task_names self.entry.table.tasks }
        ensures freezes { result.2.items ≡ self.entry.freezes }
    {
        let Core {
            program: _,
            variables,
            handlers: _,
            tasks,
            places: _,
            last_seat: _,
            running: _,
            steps: _,
            fault: _,
            touched: _,
            freezes,
        } = self;
        let names = tasks.into_names();
        (variables, names, freezes)
    }

    /// The number of steps made.
    pub fn steps(&self) -> u64
        ensures count { result ≡ self.now.steps }
        ensures reached { ⟦<P as CoreMeaning>⟧.is_reached self.now }
    {
        self.steps
    }

    /// The error that a step gave.
    pub fn fault(&self) -> Option<&RunError<<P::Lat as Lattice>::Event>>
        ensures { option_copied result ≡ self.now.fault }
    {
        self.fault.as_ref()
    }

    /// What the last step concerned; `None` before any step.
    pub fn last_touched(&self) -> Option<Touched>
        ensures { result ≡ self.now.touched }
    {
        self.touched
    }
}

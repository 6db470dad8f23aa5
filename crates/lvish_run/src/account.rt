ghost use Rattle.std.specs.Prelude.{◌≡◌, ◌++◌, ◌∷◌, [], IfOk, OnOk};
ghost use Rattle.std.specs.List.{AllByRecursion};
ghost use Rattle.lvish_core.specs.Tasks.{task_names};
ghost use Rattle.lvish_trace.specs.Packed.{IsPacked, entries_of};
ghost use Rattle.lvish_run.specs.Walk.{IsHow, IsAccount, AreStatesOf, final_state};

use lvish_board::{Outcome, PackedStep, Trace};
use lvish_calculus::{Meaning, Program};
use lvish_core::{Core, RunError};
use lvish_lattice::{Lattice, Plain};
use lvish_names::TaskName;
use lvish_report::{Counts, FinalState, Freezes, Report, States};
use lvish_variable::{Entry, Variable};
use std::alloc::{AllocError, Global};

/// What a report says of the last configuration.
pub struct Account<S, E> {
    pub outcome: Outcome<E>,
    pub states: States<S>,
    pub blocked: u64,
    /// The names of the tasks that were ever there, in the order in which they came.
    pub names: Vec<TaskName<E>>,
    /// The logs of the variables, none after an error.
    pub logs: Vec<Vec<Entry<E>>>,
    /// The frozen variables, in the order in which they were first frozen.
    pub freezes: Freezes,
}

// Written out, so that it is proved once, and not at each exit of a function that owns one.
impl<S: Drop, E: Drop> Drop for Account<S, E> {
    fn drop(self) {
        let Account {
            outcome: _,
            states: _,
            blocked: _,
            names: _,
            logs: _,
            freezes: _,
        } = self;
    }
}

impl<S, E> Account<S, E> {
    /// The report of these steps of its tasks.
    pub fn report(self, steps: u64, noted: Vec<PackedStep>, by_worker: Counts) -> Report<S, E>
        requires { AllByRecursion (IsPacked self.names.items) noted.items }
        ensures { result ≡ record { outcome = self.outcome; states = self.states; steps = steps; blocked = self.blocked; trace = entries_of self.names.items noted.items; by_worker = by_worker; freezes = self.freezes } }
    {
        let Account {
            outcome,
            states,
            blocked,
            names,
            logs,
            freezes,
        } = self;
        Report {
            outcome,
            states,
            steps,
            blocked,
            trace: Trace::new(noted, names, logs),
            by_worker,
            freezes,
        }
    }
}

/// The variables' states and marks, and their logs.
fn final_states<S: Lattice>(
    alloc: Global,
    variables: Vec<Variable<S>>,
) -> Result<(States<S>, Vec<Vec<Entry<S::Event>>>), AllocError>
    ensures { IfOk result (λ s. AreStatesOf variables.items s.0) }
{
    let mut states = Vec::new(alloc);
    let mut logs = Vec::new(alloc);
    for variable in variables {
        add_state(&mut states, &mut logs, variable)?;
    }
    Ok((States::from(states), logs))
}

/// Adds the variable's state and mark, and its log.
fn add_state<S: Lattice>(
    states: &mut Vec<FinalState<S>>,
    logs: &mut Vec<Vec<Entry<S::Event>>>,
    variable: Variable<S>,
) -> Result<(), AllocError>
    ensures { OnOk result (states.new.items ≡ states.old.items ++ final_state variable ∷ []) }
{
    let (content, frozen, log) = variable.into_parts();
    states.push(FinalState { content, frozen })?;
    logs.push(log)?;
    Ok(())
}

/// The outcome of steps of which the last gave this error.
fn failed<E: Plain>(fault: &RunError<E>) -> Result<Outcome<E>, AllocError>
    ensures { IfOk result (λ o. o ≡ Outcome.Error fault.now.kind fault.now.variable fault.now.task) }
{
    Ok(Outcome::Error {
        kind: fault.kind,
        variable: fault.variable,
        task: fault.task.copy()?,
    })
}

/// How the steps of a core came out: with its error, or by whether something is enabled.
pub fn outcome_of<P: Program>(
    alloc: Global,
    core: &Core<'_, P>,
) -> Result<Outcome<<P::Lat as Lattice>::Event>, AllocError>
    ensures { IfOk result (λ o. IsHow (⟦<P as Meaning>⟧.machine core.now.program) core.now o) }
{
    if let Some(fault) = core.fault() {
        return failed(fault);
    }
    // (an end is known without a list of the labels)
    let ended = core.is_ended(alloc)?;
    if ended {
        return Ok(Outcome::Ended);
    }
    let labels = core.labels(alloc)?;
    if labels.is_empty() {
        Ok(Outcome::Ended)
    } else {
        Ok(Outcome::Budget)
    }
}

/// The account of a core whose steps came out like this.
pub fn account_of<P: Program>(
    alloc: Global,
    core: Core<'_, P>,
    outcome: Outcome<<P::Lat as Lattice>::Event>,
) -> Result<Account<P::Lat, <P::Lat as Lattice>::Event>, AllocError>
    ensures outcome { IfOk result (λ a. a.outcome ≡ outcome) }
    ensures account { IfOk result (λ a. IsAccount (⟦<P as Meaning>⟧.machine core.entry.program) (P.functions core.entry.program).variables core.entry a.outcome a.states a.blocked) }
    ensures names { IfOk result (λ a. a.names.items ≡ task_names core.entry.table.tasks) }
    ensures freezes { IfOk result (λ a. a.freezes ≡ core.entry.freezes) }
{
    let blocked = core.running() as u64;
    let (variables, names, freezes) = core.into_parts();
    let freezes = Freezes::from(freezes);
    match &outcome {
        Outcome::Error { .. } => Ok(Account {
            outcome,
            states: States::from(Vec::new(alloc)),
            blocked: 0,
            names,
            logs: Vec::new(alloc),
            freezes,
        }),
        Outcome::Ended | Outcome::Budget => {
            let (states, logs) = final_states(alloc, variables)?;
            Ok(Account {
                outcome,
                states,
                blocked,
                names,
                logs,
                freezes,
            })
        }
    }
}

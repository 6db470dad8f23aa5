//! The trace of a run that is over.

ghost use Rattle.std.specs.Prelude.{◌≡◌, ◌≤◌, IfOk, MatchOption, length, option_copied, slice_get};
ghost use Rattle.std.specs.List.{AllByRecursion};
ghost use Rattle.lvish_trace.specs.Packed.{IsPacked, entries_of};
ghost use Rattle.lvish_trace.specs.Traced.{IsTraced};

use crate::packed_step::{PackedStep, Step};
use crate::trace_entry::{TraceEntry, entry_by};
use lvish_lattice::Plain;
use lvish_names::TaskName;
use lvish_variable::Entry;
use std::alloc::{AllocError, Global};
use std::marker::Model;

/// The steps of a run, by the names of its tasks.
///
/// It keeps the logs of the run's variables too, so that their names need not be given back one by one
/// before the run's report can be read.
pub struct Trace<E> {
    noted: Vec<PackedStep>,
    names: Vec<TaskName<E>>,
    logs: Vec<Vec<Entry<E>>>,
}

/// A step of a trace.
#[derive(Drop)]
pub enum TracedStep<'t, E> {
    /// The task that acts.
    Run(&'t TaskName<E>),
    /// The task that a handing starts.
    Hand(&'t TaskName<E>),
}

// Written out, so that it is proved once, and not at each exit of a function that owns one.
impl<E: Drop> Drop for Trace<E> {
    fn drop(self) {
        let Trace {
            noted: _,
            names: _,
            logs: _,
        } = self;
    }
}

impl<E> Model for Trace<E> {
    ghost use Rattle.std.specs.Prelude.{List};
    ghost use Rattle.std.specs.List.{AllByRecursion};
    ghost use Rattle.lvish_trace.specs.declared.trace_entry.TraceEntry.{TraceEntry};
    ghost use Rattle.lvish_trace.specs.Packed.{IsPacked, entries_of};

    ghost Value = { List (TraceEntry E) };

    ghost view = { λ t. entries_of t.names.items t.noted.items };

    ghost invariant = { λ t. AllByRecursion (IsPacked t.names.items) t.noted.items };
}

impl<E> Trace<E> {
    /// The trace of these steps, whose tasks have these names, in a run that left these logs.
    pub fn new(
        noted: Vec<PackedStep>,
        names: Vec<TaskName<E>>,
        logs: Vec<Vec<Entry<E>>>,
    ) -> Trace<E>
        requires { AllByRecursion (IsPacked names.items) noted.items }
        ensures { result ≡ entries_of names.items noted.items }
    {
        Trace { noted, names, logs }
    }

    /// How many steps there are.
    pub fn len(&self) -> usize
        ensures { result ≡ length self.now }
    {
        self.noted.len()
    }

    /// The step of this number, from 0.
    pub fn step(&self, number: usize) -> Option<TracedStep<'_, E>>
        ensures { MatchOption result (length self.now ≤ number) (λ s. IsTraced self.now number s) }
    {
        let noted = self.noted.get(number)?;
        match noted.step() {
            Step::Act(index) => Some(TracedStep::Run(self.names.get(index)?)),
            Step::Hand(index) => Some(TracedStep::Hand(self.names.get(index)?)),
        }
    }
}

impl<E: Plain> Trace<E> {
    /// The steps with their labels, in their order.
    ///
    /// # Errors
    ///
    /// Where there is no room for them.
    pub fn entries(&self, alloc: Global) -> Result<Vec<TraceEntry<E>>, AllocError>
        ensures { IfOk result (λ v. v.items ≡ self.now) }
    {
        let mut entries = Vec::with_capacity(alloc, self.noted.len())?;
        for noted in self.noted.as_slice() {
            let name = name_at(self.names.as_slice(), noted.step().index());
            entries.push_reserved(entry_by(*noted, name)?);
        }
        Ok(entries)
    }
}

/// The name at the index.
fn name_at<E>(names: &[TaskName<E>], index: usize) -> Option<&TaskName<E>>
    ensures { option_copied result ≡ slice_get names.now index }
{
    names.get(index)
}

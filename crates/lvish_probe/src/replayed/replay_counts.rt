//! How many traces were replayed, and what they came to.

use crate::replayed::otherwise::Otherwise;
use crate::replayed::replay_question::ReplayQuestion;
use lvish_compound::{Any, Event};
use lvish_run::{Outcome, Report};
use std::alloc::{AllocError, Global};

/// How many traces were replayed, their steps, what each run came to, and by how many workers the
/// last of the runs was made, 0 for the one by picks.
pub struct ReplayCounts {
    traces: u64,
    steps: u64,
    outcomes: String,
    pub workers: usize,
}

// Written out, so that it is proved once, and not at each exit of a function that owns one.
impl Drop for ReplayCounts {
    fn drop(self) {
        let ReplayCounts {
            traces: _,
            steps: _,
            outcomes: _,
            workers: _,
        } = self;
    }
}

impl ReplayCounts {
    /// No traces.
    pub fn new(alloc: Global) -> ReplayCounts {
        ReplayCounts {
            traces: 0,
            steps: 0,
            outcomes: String::new(alloc),
            workers: 0,
        }
    }

    /// Counts a report.
    pub fn add(&mut self, alloc: Global, report: &Report<Any, Event>) -> Result<(), AllocError> {
        self.traces = self.traces.saturating_add(1);
        self.steps = self.steps.saturating_add(report.steps);
        self.outcomes.push_str(" ")?;
        self.outcomes
            .push_str(outcome_word(alloc, report)?.as_str())
    }

    /// That all is well, with what else is asked.
    pub fn text(&self, alloc: Global, asked: ReplayQuestion) -> Result<String, AllocError> {
        let (traces, steps) = (self.traces, self.steps);
        let alike = if asked.alike { ", alike" } else { "" };
        if asked.counted {
            let outcomes = self.outcomes.as_str();
            return format!(in alloc; "{traces} traces replayed{alike}, {steps} steps:{outcomes}\n");
        }
        format!(in alloc; "{traces} traces replayed{alike}\n")
    }

    /// What differs in the last run.
    pub fn fault_text(&self, alloc: Global, why: Otherwise) -> Result<String, AllocError> {
        let (workers, why) = (self.workers, why.text(alloc)?);
        if workers == 0 {
            return format!(in alloc; "by picks: {why}\n");
        }
        format!(in alloc; "{workers} workers: {why}\n")
    }
}

/// What the run came to, in a word.
fn outcome_word(alloc: Global, report: &Report<Any, Event>) -> Result<String, AllocError> {
    match &report.outcome {
        Outcome::Ended if report.blocked == 0 => String::from_str(alloc, "ended"),
        Outcome::Ended => String::from_str(alloc, "blocked"),
        Outcome::Error { kind, .. } => format!(in alloc; "{kind:?}"),
        Outcome::Budget => String::from_str(alloc, "budget"),
    }
}

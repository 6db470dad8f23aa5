ghost use Rattle.std.specs.Prelude.{◌<◌, ◌≤◌};
ghost use Rattle.lvish_run.specs.declared.limits.TheConstants.{MOST_WORKERS};

use crate::gate::Gate;
use crate::limits::MOST_WORKERS;
use std::alloc::Global;

/// What stays as it is during a run: the program that is run, the gate of its workers, and how many they are.
#[derive(Drop)]
pub struct Setting<'r, 'p, P, R, G: Gate> {
    pub rt: &'r R,
    pub alloc: Global,
    pub program: &'p P,
    pub gate: &'r G,
    pub workers: usize,
    ghost some: { 0 < workers },
    ghost few: { workers ≤ MOST_WORKERS },
}

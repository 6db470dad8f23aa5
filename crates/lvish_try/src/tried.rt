ghost use Rattle.std.specs.Prelude.{◌↔◌, ◌≤◌, IsTrue, length};

use lvish_compound::{Any, Event};
use lvish_lattice::Items;
use lvish_run::Report;

/// Picks in their order.
pub type Picks = Items<u64>;

/// What runs came to, each outcome once.
pub type FoundRuns = Items<Found>;

/// An outcome of a script's runs.
pub struct Found {
    /// How many runs came to it.
    pub times: u64,
    /// Picks that make a run that comes to it.
    pub picks: Picks,
    /// The report of the run by these picks.
    pub report: Report<Any, Event>,
}

// Written out, so that it is proved once, and not at each exit of a function that owns one.
impl Drop for Found {
    fn drop(self) {
        let Found {
            times: _,
            picks: _,
            report: _,
        } = self;
    }
}

/// What the runs of a script by drawn picks came to.
pub struct Tried {
    /// How many runs were made.
    pub times: u64,
    /// What their picks were drawn from.
    pub seed: u64,
    /// Each outcome once, in the order of the first run that came to it.
    pub found: FoundRuns,
}

// Written out, so that it is proved once, and not at each exit of a function that owns one.
impl Drop for Tried {
    fn drop(self) {
        let Tried {
            times: _,
            seed: _,
            found: _,
        } = self;
    }
}

impl Tried {
    /// Whether all runs came to one outcome.
    pub fn agree(&self) -> bool
        ensures { IsTrue result ↔ (length self.now.found ≤ 1) }
    {
        self.found.as_slice().len() <= 1
    }
}

ghost use Rattle.std.specs.Prelude.{◌≡◌};
ghost use Rattle.lvish_cli.specs.Orders.{asks_format, asks_json};

use lvish_lattice::Items;
use std::alloc::AllocError;
use thiserror::Error;

/// Numbers that pick the steps of a run, in the order of the steps.
pub type Picks = Items<u64>;

/// Numbers of an event and of picks, as words give them.
pub type NumberWords = Items<i64>;

/// What the words ask for.
#[derive(Debug)]
pub enum Order {
    /// Say whether the text is a script.
    Check(CheckOrder),
    /// Run the script and print the report.
    Run(RunOrder),
    /// Run the script by picks, and print the trace and the report.
    Pick(PickOrder),
    /// Run the script by drawn picks, many times, and print each outcome.
    Try(TryOrder),
    /// Run the script by picks, and print how one event came about.
    Why(WhyOrder),
    /// Print what the script's procedures do.
    Graph(GraphOrder),
    /// Print the text in one layout.
    Format,
}

// Written out, so that it is proved once, and not at each exit of a function that owns one.
impl Drop for Order {
    fn drop(self) {
        match self {
            Order::Check(_) => {}
            Order::Run(_) => {}
            Order::Pick(_) => {}
            Order::Try(_) => {}
            Order::Why(_) => {}
            Order::Graph(_) => {}
            Order::Format => {}
        }
    }
}

impl Order {
    /// Whether it is about any bytes, and about no script.
    pub fn asks_format(&self) -> bool
        ensures { result ≡ asks_format self.now }
    {
        matches!(self, Order::Format)
    }

    /// Whether its answer is for programs.
    pub fn asks_json(&self) -> bool
        ensures { result ≡ asks_json self.now }
    {
        match self {
            Order::Check(asked) => asked.json,
            Order::Run(asked) => asked.json,
            Order::Pick(asked) => asked.json,
            Order::Try(asked) => asked.json,
            Order::Why(_) => false,
            Order::Graph(_) => false,
            Order::Format => false,
        }
    }
}

/// What is asked of a text that is checked.
#[derive(Clone, Copy, Debug)]
pub struct CheckOrder {
    /// Whether to say as well whether all runs of it end, and after how many steps at most.
    pub ends: bool,
    /// Whether to say as well whether all ends of it are the same.
    pub alike: bool,
    /// That all runs end is said as far as a run of this many steps shows it.
    pub budget: u64,
    /// Whether it is said for programs.
    pub json: bool,
}

/// What is asked of a run by workers.
#[derive(Clone, Copy, Debug)]
pub struct RunOrder {
    /// How many workers run the script.
    pub workers: usize,
    /// After this many steps the run is stopped.
    pub budget: u64,
    /// Whether every variable is reported, or frozen ones alone.
    pub all: bool,
    /// Whether the trace is printed before the report.
    pub trace: bool,
    /// Whether the picks that make this run again are printed behind the report.
    pub picks: bool,
    /// Whether it is said for programs, without a trace.
    pub json: bool,
}

/// What is asked of a run by picks.
#[derive(Debug)]
pub struct PickOrder {
    /// Which of the enabled steps is made, in turn.
    pub picks: Picks,
    /// After this many steps the run is stopped.
    pub budget: u64,
    /// Whether every variable is reported, or frozen ones alone.
    pub all: bool,
    /// Whether it is said for programs, without a trace.
    pub json: bool,
}

// Written out, so that it is proved once, and not at each exit of a function that owns one.
impl Drop for PickOrder {
    fn drop(self) {
        let PickOrder {
            picks: _,
            budget: _,
            all: _,
            json: _,
        } = self;
    }
}

/// What is asked of runs by drawn picks.
#[derive(Clone, Copy, Debug)]
pub struct TryOrder {
    /// How many runs are made.
    pub times: u64,
    /// From which their picks are drawn.
    pub seed: u64,
    /// After this many steps each run is stopped.
    pub budget: u64,
    /// Whether it is said for programs.
    pub json: bool,
}

/// What is asked of an event in a run by picks.
#[derive(Debug)]
pub struct WhyOrder {
    /// The name of the variable that has it.
    pub variable: String,
    /// Its key, where the variable's kind has keys, its number, and the picks.
    pub numbers: NumberWords,
    /// After this many steps the run is stopped.
    pub budget: u64,
    /// How many causes deep a tree is printed.
    pub depth: u64,
    /// Whether it is printed for Graphviz.
    pub dot: bool,
}

// Written out, so that it is proved once, and not at each exit of a function that owns one.
impl Drop for WhyOrder {
    fn drop(self) {
        let WhyOrder {
            variable: _,
            numbers: _,
            budget: _,
            depth: _,
            dot: _,
        } = self;
    }
}

/// How a script's procedures are printed.
#[derive(Clone, Copy, Debug)]
pub struct GraphOrder {
    /// Whether for Graphviz.
    pub dot: bool,
}

/// Where the script is.
#[derive(Drop)]
pub enum Source {
    /// In the file at this path.
    File(String),
    /// Standard input has it.
    StandardInput,
}

/// Why the words are no order.
#[derive(Debug, Drop, Error)]
pub enum UsageFault {
    /// Help was asked for: this is it.
    #[error("{0}")]
    Help(String),
    /// The words are refused, and this says why.
    #[error("{0}")]
    Refused(String),
    #[error("memory")]
    Memory,
}

impl From<AllocError> for UsageFault {
    ghost use Rattle.lvish_cli.specs.declared.order.UsageFault.TheVariants.{Memory};

    ghost from_gives = { λ e f. f ≡ Memory };

    fn from(_error: AllocError) -> UsageFault {
        UsageFault::Memory
    }
}

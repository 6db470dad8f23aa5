//! What is asked about the runs.

/// The most steps that a run may have.
pub const MOST_REPLAYED: u64 = 100_000;

/// How many steps a run may have where no number is given.
const USUAL_STEPS: u64 = 10_000;

/// What is asked about the runs.
#[derive(Clone, Copy)]
pub struct ReplayQuestion {
    /// Whether all runs have to come to the same.
    pub alike: bool,
    /// Whether the answer says how many steps there were, and to what each run came.
    pub counted: bool,
    /// The most steps that a run may have.
    pub budget: u64,
}

/// What these words ask; `None` where one of them says nothing.
pub fn asked_by(words: &[String]) -> Option<ReplayQuestion> {
    let mut asked = ReplayQuestion {
        alike: false,
        counted: false,
        budget: USUAL_STEPS,
    };
    for word in words {
        match word.as_str() {
            "alike" => asked.alike = true,
            "counted" => asked.counted = true,
            steps => asked.budget = steps.parse::<u64>().ok()?,
        }
    }
    Some(asked)
}

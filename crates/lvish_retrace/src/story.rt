use crate::begin::Begin;
use crate::bringer::Bringer;
use crate::live::Live;
use crate::procedure::ToldProcedure;
use crate::standing::Standing;
use crate::told_step::ToldStep;
use lvish_compound::Event;
use lvish_names::TaskName;

/// What is told of a run. A task's index is its place among the core's tasks.
pub struct Story<'t> {
    /// The procedures, by their numbers.
    pub procedures: Vec<ToldProcedure<'t>>,
    /// The name of each task, by its index.
    pub names: Vec<TaskName<Event>>,
    /// How each task began, by its index.
    pub begins: Vec<Begin>,
    /// The steps in their order.
    pub steps: Vec<ToldStep>,
    /// Each event of the variables' logs, in the order of the steps that brought them.
    pub brought: Vec<Bringer<Event>>,
    /// Where each of these puts stood.
    pub standings: Vec<Standing>,
    /// The tasks that haven't ended, by index.
    pub live: Vec<Live>,
}

// Written out, so that it is proved once, and not at each exit of a function that owns one.
impl<'t> Drop for Story<'t> {
    fn drop(self) {
        let Story {
            procedures: _,
            names: _,
            begins: _,
            steps: _,
            brought: _,
            standings: _,
            live: _,
        } = self;
    }
}

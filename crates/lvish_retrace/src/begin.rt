use lvish_compound::Event;

/// How a task began.
#[derive(Clone, Copy)]
pub enum Begin {
    /// It is `main`.
    Main,
    /// The task of this index forked it at this step.
    Forked {
        by: usize,
        step: usize,
    },
    /// At this step a handler of this variable was handed the event.
    Handed {
        variable: usize,
        event: Event,
        step: usize,
    },
}

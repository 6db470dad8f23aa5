/// What is told of an event.
#[derive(Drop)]
pub struct Derived {
    /// Whether the event is there.
    pub is_there: bool,
    pub text: Vec<u8>,
}

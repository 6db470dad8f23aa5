/// What a put brought to a state: it was joined, and brought nothing or one event; the join is top;
/// or nothing was done, since a list has to say which events it brings.
#[derive(Clone, Copy, Debug)]
pub enum Brought<E> {
    Nothing,
    One(E),
    Top,
    Listed,
}

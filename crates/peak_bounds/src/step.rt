/// Which task of a set starts: the first of them in an order, or the last.
#[derive(Clone, Copy, Debug, PartialEq, Eq)]
pub enum Event {
    First,
    Last,
}

/// What the reader of a graph file of version 2 expects next.
#[derive(Clone, Copy, Debug, PartialEq, Eq)]
pub enum Stage {
    Header,
    TaskCount,
    Tasks,
    Items,
    Ended,
}

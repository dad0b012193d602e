/// What the reader of a graph file expects next.
#[derive(Clone, Copy, Debug, PartialEq, Eq)]
pub enum Stage {
    Header,
    TaskCount,
    Tasks,
    Arcs,
    Ended,
}

/// What the reader of a tree file expects next.
#[derive(Clone, Copy, Debug, PartialEq, Eq)]
pub enum Stage {
    Header,
    Count,
    Nodes,
    Ended,
}

/// What the reader of a workflow file expects next.
#[derive(Clone, Copy, Debug, PartialEq, Eq)]
pub enum Stage {
    Header,
    Count,
    Positions,
    Ended,
}

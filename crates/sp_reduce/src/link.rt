/// A link between two tasks, of which 0 is none.
#[derive(Clone, Copy, Debug, PartialEq, Eq)]
pub struct Link {
    pub alive: bool,
    pub from: u32,
    pub to: u32,
}

/// What became of the links of a task that was taken out.
#[derive(Clone, Copy, Debug)]
pub struct Taken {
    /// The start of the link into the task.
    pub from: u32,
    /// The end of the link out of it.
    pub to: u32,
    /// Where the link into the task stood; the new one stands there, unless it has a twin.
    pub first: u32,
    /// Where the link out of it stood.
    pub second: u32,
    /// Where a link stands that has the ends of the new one.
    pub twin: Option<u32>,
}

/// An arc of a task graph: data that one task produces and another consumes.
#[derive(Clone, Copy, Debug, PartialEq, Eq)]
pub struct Arc {
    /// The number of the task that produces the data, from 1; 0 where none does.
    pub from: u32,
    /// The number of the task that consumes them; 0 where none does.
    pub to: u32,
    /// The size of the data, at most 2^40; 0 is a mere dependence.
    pub size: u64,
}

/// An item, as a caller's array has it. The layout is that of the same struct in C.
#[repr(C)]
#[derive(Clone, Copy, Debug, PartialEq, Eq)]
pub struct GivenSharedItem {
    /// At most 2^40; 0 is a mere dependence.
    pub size: u64,
    /// The task that produces it; 0 where it is there from the start.
    pub from: u32,
    /// How many tasks read it. Their numbers stand in an array of their own, after those of the item before. Without any it stays to
    /// the end.
    pub readers: u32,
}

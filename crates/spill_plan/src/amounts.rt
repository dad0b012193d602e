/// What goes to disk: the volume in all, of items at most 2^60, and the amount of each item of the system, or of each gap between uses of its
/// items, at most the size.
#[derive(Drop)]
pub struct Spill {
    pub volume: u64,
    pub amounts: Vec<u64>,
}

use claim_check::Shape;

/// A claim that fails.
#[derive(Clone, Copy)]
pub struct Failing {
    /// Its position.
    pub position: u32,
    /// What stands there.
    pub shape: Shape,
}

ghost use Rattle.std.specs.Prelude.{◌≡◌};
ghost use Rattle.sp_term_laws.specs.Moves.{other};
ghost use Rattle.plans.specs.Plan.{direction_of};

/// The direction in which a claim is meant.
#[derive(Clone, Copy, Debug, PartialEq, Eq)]
pub enum Direction {
    /// Forwards, from the first state on.
    Forward,
    /// Backwards, from the last state back.
    Backward,
}

impl Direction {
    /// The opposite direction.
    pub fn opposite(self) -> Direction
        ensures { direction_of result ≡ other (direction_of self) }
    {
        match self {
            Direction::Forward => Direction::Backward,
            Direction::Backward => Direction::Forward,
        }
    }
}

/// A claim on the part of a term that ends at a position: no traversal of the part has a peak within the bound, and each state that is
/// reached within it, in the claim's direction, has a memory of at least the rest.
#[derive(Clone, Copy, Debug, PartialEq, Eq)]
pub struct Claim {
    /// The position, from 1.
    pub position: u32,
    /// The direction.
    pub dir: Direction,
    /// The bound, from -2^60 to 2^60.
    pub bound: i64,
    /// The rest, at most 2^60.
    pub rest: u64,
}

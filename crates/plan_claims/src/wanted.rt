//! What is wanted of a term.

ghost use Rattle.std.specs.Prelude.{◌≡◌, ◌-◌};

use plans::Direction;

// A claim that is wanted of a term: in a direction, below a limit, with the lowest level of the side in that direction.
#[derive(Clone, Copy)]
pub(crate) struct Wanted {
    pub dir: Direction,
    // the bound and 1
    pub limit: u64,
    pub low: u64,
}

// How far the limit is above where the side is stuck. It is the same for a part as for the whole that it is a part of.
pub(crate) fn over_of(wanted: &Wanted) -> u64
    ensures { result ≡ wanted.now.limit - wanted.now.low }
{
    wanted.limit.saturating_sub(wanted.low)
}

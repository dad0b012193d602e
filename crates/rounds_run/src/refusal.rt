ghost use Rattle.std.specs.Prelude.{◌≡◌};
ghost use Rattle.rounds_run.specs.declared.refusal.FrontsRefusal.TheVariants.{NoMemory as OutOfMemory};

use crate::NoMemory;
use std::fmt::{self, Display, Formatter, Write};

/// Why there are no fronts.
#[derive(Clone, Copy, Debug, PartialEq, Eq)]
pub enum FrontsRefusal {
    /// The bound is below the peak of the fronts in the order of their numbers, in rows.
    BoundBelow { bound: u64, peak: u64 },
    /// Memory ran out, which says nothing of the fronts.
    NoMemory,
}

impl From<NoMemory> for FrontsRefusal {
    ghost from_gives = { λ _ e. e ≡ OutOfMemory };

    fn from(_no_memory: NoMemory) -> FrontsRefusal {
        FrontsRefusal::NoMemory
    }
}

impl Display for FrontsRefusal {
    fn fmt<W: Write>(&self, f: &mut Formatter<W>) -> fmt::Result {
        match self {
            FrontsRefusal::BoundBelow { bound, peak } => write!(f, "bound {bound} {peak}"),
            FrontsRefusal::NoMemory => f.write_str("no memory"),
        }
    }
}

ghost use Rattle.std.specs.Prelude.{◌≡◌};
ghost use Rattle.spill_plan.specs.Refusal.{spill_refusal_of};
ghost use Rattle.spill_plan.specs.declared.refusal.SpillRefusal.TheVariants.{NoMemory as OutOfMemory};

use crate::NoMemory;
use mp_system::{OrderFault, ReplayRefusal};
use std::fmt::{self, Display, Formatter, Write};

/// Why there are no amounts to spill.
#[derive(Clone, Copy, Debug, PartialEq, Eq)]
pub enum SpillRefusal {
    /// The order is no traversal: the first place at which it fails.
    Order(OrderFault),
    /// The first step, counted from 1, whose inputs and need pass the bound: nothing that goes to disk makes room for it.
    WorkingSet { step: u64, need: u64, bound: u64 },
    /// Memory ran out, which says nothing of the order.
    NoMemory,
}

impl From<NoMemory> for SpillRefusal {
    ghost from_gives = { λ _ e. e ≡ OutOfMemory };

    fn from(_no_memory: NoMemory) -> SpillRefusal {
        SpillRefusal::NoMemory
    }
}

// The same refusal as that of a replay.
impl From<ReplayRefusal> for SpillRefusal {
    ghost from_gives = { λ r e. e ≡ spill_refusal_of r };

    fn from(refusal: ReplayRefusal) -> SpillRefusal {
        match refusal {
            ReplayRefusal::Order(fault) => SpillRefusal::Order(fault),
            ReplayRefusal::NoMemory => SpillRefusal::NoMemory,
        }
    }
}

impl Display for SpillRefusal {
    fn fmt<W: Write>(&self, f: &mut Formatter<W>) -> fmt::Result {
        match self {
            SpillRefusal::Order(fault) => fault.fmt(f),
            SpillRefusal::WorkingSet { step, need, bound } => {
                write!(f, "working-set {step} {need} {bound}")
            }
            SpillRefusal::NoMemory => f.write_str("no memory"),
        }
    }
}

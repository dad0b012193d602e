//! Why a call is refused.

ghost use Rattle.std.specs.Prelude.{◌≡◌};
ghost use Rattle.c_calls.specs.declared.refusal.Refusal.TheVariants as refusals;

use activation::CoreRefusal;
use claim_check::Objection;
use equivalent_orders::FrontsRefusal;
use mp_system::{ReplayRefusal, SystemRefusal};
use ordering::MindegRefusal;
use patterns::ColumnsRefusal;
use permutations::PermRefusal;
use shared_systems::SharedRefusal;
use spill_plan::SpillRefusal;
use std::alloc::AllocError;
use trees::NodesRefusal;

/// Why an order, a peak and claims are no plan that could be judged.
#[derive(Clone, Copy)]
pub enum PlanFault {
    /// The order has more than 10^6 places.
    LongOrder,
    /// The peak is greater than 2^60.
    GreatPeak,
    /// There are more than 4,000,001 claims.
    ManyClaims,
    /// The first claim, counted from 1, whose position is not greater than that of the one before, or whose bound or rest is past 2^60.
    Claim(u64),
}

/// Why a call is refused.
#[derive(Clone, Copy)]
pub enum Refusal {
    /// An array that is to be written has not the length that is needed.
    Room { needed: u64 },
    /// There is room for fewer claims than the plan has; so many are always enough.
    ClaimRoom { needed: u64 },
    /// There is room for fewer nodes than there are fronts.
    NodeRoom { needed: u64 },
    /// The number of a shape is none.
    Shape,
    /// There is no worker, or there are more than 4,096.
    Workers,
    /// The nodes are no tree.
    Nodes(NodesRefusal),
    /// The tasks and items are no system.
    System(SystemRefusal),
    /// The tasks, items and readers are no system.
    Shared(SharedRefusal),
    /// The order is no traversal.
    Replay(ReplayRefusal),
    /// There is no core for the order and the bound.
    Core(CoreRefusal),
    /// Nothing that goes to disk makes the order fit.
    Spill(SpillRefusal),
    /// The compressed columns are none of a matrix.
    Columns(ColumnsRefusal),
    /// The order of elimination is none.
    Perm(PermRefusal),
    /// There is no order of minimum degree.
    Degree(MindegRefusal),
    /// The arrays do not tell the columns of fronts.
    Fronts(FrontsRefusal),
    /// The order, the peak and the claims are no plan.
    Plan(PlanFault),
    /// The plan is not accepted.
    Objection(Objection),
    /// Memory ran out.
    NoMemory,
}

impl From<AllocError> for Refusal {
    ghost from_gives = { λ _ e. e ≡ refusals.NoMemory };

    fn from(_no_memory: AllocError) -> Refusal {
        Refusal::NoMemory
    }
}

impl From<NodesRefusal> for Refusal {
    ghost from_gives = { λ r e. e ≡ refusals.Nodes r };

    fn from(refusal: NodesRefusal) -> Refusal {
        Refusal::Nodes(refusal)
    }
}

impl From<SystemRefusal> for Refusal {
    ghost from_gives = { λ r e. e ≡ refusals.System r };

    fn from(refusal: SystemRefusal) -> Refusal {
        Refusal::System(refusal)
    }
}

impl From<SharedRefusal> for Refusal {
    ghost from_gives = { λ r e. e ≡ refusals.Shared r };

    fn from(refusal: SharedRefusal) -> Refusal {
        Refusal::Shared(refusal)
    }
}

impl From<ReplayRefusal> for Refusal {
    ghost from_gives = { λ r e. e ≡ refusals.Replay r };

    fn from(refusal: ReplayRefusal) -> Refusal {
        Refusal::Replay(refusal)
    }
}

impl From<CoreRefusal> for Refusal {
    ghost from_gives = { λ r e. e ≡ refusals.Core r };

    fn from(refusal: CoreRefusal) -> Refusal {
        Refusal::Core(refusal)
    }
}

impl From<SpillRefusal> for Refusal {
    ghost from_gives = { λ r e. e ≡ refusals.Spill r };

    fn from(refusal: SpillRefusal) -> Refusal {
        Refusal::Spill(refusal)
    }
}

impl From<ColumnsRefusal> for Refusal {
    ghost from_gives = { λ r e. e ≡ refusals.Columns r };

    fn from(refusal: ColumnsRefusal) -> Refusal {
        Refusal::Columns(refusal)
    }
}

impl From<PermRefusal> for Refusal {
    ghost from_gives = { λ r e. e ≡ refusals.Perm r };

    fn from(refusal: PermRefusal) -> Refusal {
        Refusal::Perm(refusal)
    }
}

impl From<MindegRefusal> for Refusal {
    ghost from_gives = { λ r e. e ≡ refusals.Degree r };

    fn from(refusal: MindegRefusal) -> Refusal {
        Refusal::Degree(refusal)
    }
}

impl From<FrontsRefusal> for Refusal {
    ghost from_gives = { λ r e. e ≡ refusals.Fronts r };

    fn from(refusal: FrontsRefusal) -> Refusal {
        Refusal::Fronts(refusal)
    }
}

impl From<PlanFault> for Refusal {
    ghost from_gives = { λ r e. e ≡ refusals.Plan r };

    fn from(fault: PlanFault) -> Refusal {
        Refusal::Plan(fault)
    }
}

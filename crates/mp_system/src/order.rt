ghost use Rattle.std.specs.Prelude.{◌≡◌, IfOk, IfErr};
ghost use Rattle.mp_system.specs.Memory.{peak_of};
ghost use Rattle.mp_system.specs.Traversal.{IsTraversal};
ghost use Rattle.mp_system.specs.Refusal.{IsOrderRefusal};
ghost use Rattle.mp_system.specs.declared.order.ReplayRefusal.TheVariants.{NoMemory};

use crate::NoMemory;
use crate::state::Replay;
use crate::system::{OrderKind, System};
use std::alloc::Global;
use std::fmt::{self, Display, Formatter, Write};

/// Where an order fails first to be a traversal, and why. Places are counted from 1.
#[derive(Clone, Copy, Debug, PartialEq, Eq)]
pub struct OrderFault {
    pub place: u64,
    pub kind: OrderKind,
}

/// Why an order has no peak.
#[derive(Clone, Copy, Debug, PartialEq, Eq)]
pub enum ReplayRefusal {
    /// It is no traversal.
    Order(OrderFault),
    /// Memory ran out, which says nothing of the order.
    NoMemory,
}

impl From<NoMemory> for ReplayRefusal {
    ghost from_gives = { λ _ e. e ≡ NoMemory };

    fn from(_no_memory: NoMemory) -> ReplayRefusal {
        ReplayRefusal::NoMemory
    }
}

impl Display for OrderFault {
    fn fmt<W: Write>(&self, f: &mut Formatter<W>) -> fmt::Result {
        write!(f, "{} at place {}", self.kind, self.place)
    }
}

impl Display for ReplayRefusal {
    fn fmt<W: Write>(&self, f: &mut Formatter<W>) -> fmt::Result {
        match self {
            ReplayRefusal::Order(fault) => fault.fmt(f),
            ReplayRefusal::NoMemory => f.write_str("no memory"),
        }
    }
}

/// The peak of a traversal, or the first place at which the order fails to be one. Liu 1987; Jacquelin et al. 2011.
/// Linear in the tasks and items.
pub fn replay(alloc: Global, system: &System, order: &[u32]) -> Result<u64, ReplayRefusal>
    ensures peak { IfOk result (λ peak.
        IsTraversal system.now order.now × (peak ≡ peak_of system.now order.now)) }
    ensures fault { IfErr result (IsOrderRefusal system.now order.now) }
{
    let mut replay = Replay::new(alloc, system)?;
    let mut peak = replay.memory();
    for (i, task) in order.iter().enumerate() {
        match replay.step(system, *task) {
            Ok(running) => peak = peak.max(running).max(replay.memory()),
            Err(kind) => {
                return Err(ReplayRefusal::Order(OrderFault {
                    place: i as u64 + 1,
                    kind,
                }));
            }
        }
    }
    if order.len() < system.tasks().len() {
        return Err(ReplayRefusal::Order(OrderFault {
            place: order.len() as u64 + 1,
            kind: OrderKind::Missing,
        }));
    }
    Ok(peak)
}

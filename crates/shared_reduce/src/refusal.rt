ghost use Rattle.std.specs.Prelude.{◌≡◌};

use crate::NoMemory;

/// Why a shared system has no term.
#[derive(Drop)]
pub enum SharedReduceRefusal {
    /// No term has the system of the completed graph of uses. The arcs of an irreducible rest, each by its ends, in rising order; 0 stands
    /// for none.
    Uses(Vec<(u32, u32)>),
    /// This item, the first such, counted from 1, has readers, and none of them comes after all the others.
    Item(u32),
    /// There are last readers, but no term has the system of the completed graph in which they alone carry the items. The arcs of an
    /// irreducible rest of it.
    Rest(Vec<(u32, u32)>),
    /// One of the two graphs has more than 2,000,001 arcs, once an arc leads into each task and out of it.
    Arcs,
    /// Memory ran out, which says nothing of the system.
    NoMemory,
}

impl From<NoMemory> for SharedReduceRefusal {
    ghost use Rattle.shared_reduce.specs.declared.refusal.SharedReduceRefusal.TheVariants.{NoMemory as OutOfMemory};

    ghost from_gives = { λ _ e. e ≡ OutOfMemory };

    fn from(_no_memory: NoMemory) -> SharedReduceRefusal {
        SharedReduceRefusal::NoMemory
    }
}

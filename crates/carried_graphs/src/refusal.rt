ghost use Rattle.std.specs.Prelude.{◌≡◌};

use crate::NoMemory;

/// Why there is no last reader for each item.
#[derive(Clone, Copy, Debug, PartialEq, Eq)]
pub enum LastReaderRefusal {
    /// This item, the first such, counted from 1, has readers, and none of them comes after all the others.
    Item(u32),
    /// Memory ran out, which says nothing of the system.
    NoMemory,
}

impl From<NoMemory> for LastReaderRefusal {
    ghost use Rattle.carried_graphs.specs.declared.refusal.LastReaderRefusal.TheVariants.{NoMemory as OutOfMemory};

    ghost from_gives = { λ _ e. e ≡ OutOfMemory };

    fn from(_no_memory: NoMemory) -> LastReaderRefusal {
        LastReaderRefusal::NoMemory
    }
}

/// Why there is no graph of a system.
#[derive(Clone, Copy, Debug, PartialEq, Eq)]
pub enum CarriedRefusal {
    /// It has more than 2,000,001 arcs, once an arc leads into each task and out of it.
    Arcs,
    /// Memory ran out, which says nothing of the system.
    NoMemory,
}

impl From<NoMemory> for CarriedRefusal {
    ghost use Rattle.carried_graphs.specs.declared.refusal.CarriedRefusal.TheVariants.{NoMemory as OutOfMemory};

    ghost from_gives = { λ _ e. e ≡ OutOfMemory };

    fn from(_no_memory: NoMemory) -> CarriedRefusal {
        CarriedRefusal::NoMemory
    }
}

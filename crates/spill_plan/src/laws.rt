//! Laws of spill plans: what holds of each, without a call.

ghost use Rattle.std.specs.Prelude.{◌≡◌, ℕ, ◌+◌, ◌↔◌, List, ◌∷◌, ◌++◌, length};
ghost use Rattle.mp_system.specs.System.{TaskSystem};
ghost use Rattle.mp_system.specs.Memory.{stands_in};
ghost use Rattle.shared_systems.specs.Shared.{SharedTaskSystem};
ghost use Rattle.shared_systems.specs.SharedMemory.{shared_running};
ghost use Rattle.shared_systems.specs.SharedTraversal.{IsSharedTraversal};
ghost use Rattle.shared_systems.specs.Bounds.{IsSharedSystem};
ghost use Rattle.shared_systems.specs.OneReader.{shared_of};
ghost use Rattle.spill_plan.specs.SpillPlans.{IsLeastSpill};
ghost use Rattle.spill_plan.specs.Gaps.{own_gap_need, gap_kept, IsLeastGapSpill};

/// The least volume is one number, whatever the amounts.
pub fn one_least_volume()
    ensures { (system : TaskSystem) (order : List ℕ) (bound : ℕ) (amounts others : List ℕ) (volume other : ℕ) →
        IsLeastSpill system order bound amounts volume → IsLeastSpill system order bound others other → volume ≡ other }
{}

/// The least volume of gaps is one number, whatever the amounts.
pub fn one_least_gap_volume()
    ensures { (system : SharedTaskSystem) (order : List ℕ) (bound : ℕ) (amounts others : List ℕ) (volume other : ℕ) →
        IsLeastGapSpill system order bound amounts volume → IsLeastGapSpill system order bound others other → volume ≡ other }
{}

/// With nothing on disk, what a step of a traversal needs for itself and what is held across it are the memory while its task runs: an item
/// that is there and that the task does not read waits for just one of its readers, or stays to the end.
pub fn whole_law()
    ensures { (system : SharedTaskSystem) (order before rest : List ℕ) (v : ℕ) → IsSharedSystem system → IsSharedTraversal system order →
        order ≡ before ++ v ∷ rest →
        own_gap_need system order (length before) + gap_kept system order (length before) (λ gap. 0)
        ≡ shared_running system (stands_in before) v }
{}

/// Where each item has at most one reader, its one gap is the item: a least spill of gaps is one of items, with the same amounts.
pub fn one_reader_law()
    ensures { (system : TaskSystem) (order : List ℕ) (bound : ℕ) (amounts : List ℕ) (volume : ℕ) →
        IsLeastGapSpill (shared_of system) order bound amounts volume ↔ IsLeastSpill system order bound amounts volume }
{}

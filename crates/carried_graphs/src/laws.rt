//! Laws over the definitions: each contract is a law, and each body is empty.
ghost use Rattle.std.specs.Prelude.{◌≡◌, ℕ, ◌↔◌, Bool, true, List, length};
ghost use Rattle.std.specs.List.{sum_by};
ghost use Rattle.mp_system.specs.System.{need_of};
ghost use Rattle.mp_system.specs.Memory.{state_memory, is_ready, peak_of};
ghost use Rattle.mp_system.specs.Traversal.{IsTraversal, IsLeast};
ghost use Rattle.graphs.specs.Graph.{IsGraph, own_system};
ghost use Rattle.graphs.specs.Judged.{HasFewArcs};
ghost use Rattle.shared_systems.specs.Shared.{SharedTaskSystem, SharedItem, shared_need_of};
ghost use Rattle.shared_systems.specs.SharedMemory.{shared_memory, shared_peak_of, has_inputs};
ghost use Rattle.shared_systems.specs.SharedTraversal.{IsSharedTraversal, IsLeastShared};
ghost use Rattle.shared_systems.specs.Bounds.{IsSharedSystem};
ghost use Rattle.shared_systems.specs.Paths.{ComesAfter, StandsBefore};
ghost use Rattle.carried_graphs.specs.Carried.{IsLastReader, AreLastReaders, carried, arc_count};

/// A task that comes after another stands after it in every traversal.
pub fn order_law()
    ensures { (system : SharedTaskSystem) (order : List ℕ) (u v : ℕ) → IsSharedSystem system → IsSharedTraversal system order →
        ComesAfter system u v → StandsBefore order u v }
{}

/// An item has at most one last reader.
pub fn one_last_reader()
    ensures { (system : SharedTaskSystem) (x : SharedItem) (z other : ℕ) → IsSharedSystem system →
        IsLastReader system x z → IsLastReader system x other → z ≡ other }
{}

/// The graph of a shared system in which the last readers alone carry the items has the same traversals, with the same peaks, and the same
/// least peak. A task is ready in the same states, and needs the same; the memory is the same in each state in which the suppliers of all
/// done tasks are done. It is a graph within the limits, unless it has too many arcs.
pub fn carried_law()
    ensures traversal { (system : SharedTaskSystem) (lasts order : List ℕ) → IsSharedSystem system → AreLastReaders system lasts →
        (IsSharedTraversal system order ↔ IsTraversal (own_system (carried lasts system)) order) }
    ensures ready { (system : SharedTaskSystem) (lasts : List ℕ) (done : ℕ → Bool) (v : ℕ) →
        IsSharedSystem system → AreLastReaders system lasts →
        is_ready (own_system (carried lasts system)) done v ≡ has_inputs system done v }
    ensures need { (system : SharedTaskSystem) (lasts : List ℕ) (v : ℕ) → IsSharedSystem system → AreLastReaders system lasts →
        need_of (own_system (carried lasts system)) v ≡ shared_need_of system v }
    ensures memory { (system : SharedTaskSystem) (lasts : List ℕ) (done : ℕ → Bool) → IsSharedSystem system → AreLastReaders system lasts →
        ((v : ℕ) → done v ≡ true → has_inputs system done v ≡ true) →
        state_memory (own_system (carried lasts system)) done ≡ shared_memory system done }
    ensures peak { (system : SharedTaskSystem) (lasts order : List ℕ) → IsSharedSystem system → AreLastReaders system lasts →
        IsSharedTraversal system order → peak_of (own_system (carried lasts system)) order ≡ shared_peak_of system order }
    ensures least { (system : SharedTaskSystem) (lasts : List ℕ) (peak : ℕ) → IsSharedSystem system → AreLastReaders system lasts →
        (IsLeastShared system peak ↔ IsLeast (own_system (carried lasts system)) peak) }
    ensures arcs { (system : SharedTaskSystem) (lasts : List ℕ) → AreLastReaders system lasts →
        length (carried lasts system).arcs ≡ sum_by arc_count system.items }
    ensures graph { (system : SharedTaskSystem) (lasts : List ℕ) → IsSharedSystem system → AreLastReaders system lasts →
        HasFewArcs (carried lasts system) → IsGraph (carried lasts system) }
{}

//! Laws over the definitions: each contract is a law, and each body is empty.
ghost use Rattle.std.specs.Prelude.{◌≡◌, ℕ, ◌+◌, ◌<◌, ◌≤◌, ◌↔◌, Bool, true, List, All, None, count_by, length};
ghost use Rattle.std.specs.List.{sum_by};
ghost use Rattle.limits.specs.Limits.{most_total};
ghost use Rattle.mp_system.specs.System.{TaskSystem, IsSystem, IsTask, need_of};
ghost use Rattle.mp_system.specs.Memory.{state_memory, is_ready, peak_of};
ghost use Rattle.mp_system.specs.Traversal.{IsTraversal, IsLeast, first_fault};
ghost use Rattle.shared_systems.specs.Shared.{SharedTaskSystem, HasTask, shared_need_of};
ghost use Rattle.shared_systems.specs.SharedMemory.{shared_memory, shared_peak_of, has_inputs};
ghost use Rattle.shared_systems.specs.SharedTraversal.{IsSharedTraversal, IsLeastShared, first_shared_fault};
ghost use Rattle.shared_systems.specs.Collected.{collected, dropped, is_shared, wait_count, HasRoom};
ghost use Rattle.shared_systems.specs.Woven.{woven};
ghost use Rattle.shared_systems.specs.Bounds.{IsSharedSystem};
ghost use Rattle.shared_systems.specs.OneReader.{shared_of, unshared, HasOneReader};
ghost use Rattle.graphs.specs.Graph.{TaskGraph, IsGraph, own_system};

use mp_system::laws::{ready_law, traversal_law};

/// How large the collected system is.
pub fn count_law()
    ensures tasks { (system : SharedTaskSystem) → length (collected system).tasks ≡ length system.tasks + count_by is_shared system.items }
    ensures items { (system : SharedTaskSystem) → length (collected system).items ≡ length system.items + sum_by wait_count system.items }
{}

/// The collected system is a system within the limits, if it has as many tasks and items as one may have.
pub fn system_law()
    ensures { (system : SharedTaskSystem) → IsSharedSystem system → HasRoom system → IsSystem (collected system) }
{}

/// A state of the collected system in which the suppliers of all done tasks are done has at least the memory of the shared system's state. A
/// task needs the same in both, and a collector needs nothing; so what bounds the memory of states and running tasks in the collected system
/// bounds it in the shared one.
pub fn state_law()
    ensures memory { (system : SharedTaskSystem) (done : ℕ → Bool) →
        ((v : ℕ) → done v ≡ true → is_ready (collected system) done v ≡ true) →
        shared_memory system done ≤ state_memory (collected system) done }
    ensures need { (system : SharedTaskSystem) (v : ℕ) → HasTask system v → need_of (collected system) v ≡ shared_need_of system v }
    ensures collector { (system : SharedTaskSystem) (v : ℕ) → IsSharedSystem system →
        IsTask (collected system) v → length system.tasks < v → need_of (collected system) v ≡ 0 }
{}

/// A traversal of the collected system is one of the shared system where the collectors are left out, with a peak at most as high.
pub fn dropping_law()
    ensures traversal { (system : SharedTaskSystem) (order : List ℕ) → IsSharedSystem system →
        IsTraversal (collected system) order → IsSharedTraversal system (dropped system order) }
    ensures peak { (system : SharedTaskSystem) (order : List ℕ) → IsSharedSystem system →
        IsTraversal (collected system) order → shared_peak_of system (dropped system order) ≤ peak_of (collected system) order }
{
    ready_law();
}

/// A traversal of the shared system is one of the collected system where each collector is put in right after the last of its readers, with
/// the same peak; without the collectors it is as it was.
pub fn weaving_law()
    ensures traversal { (system : SharedTaskSystem) (order : List ℕ) → IsSharedSystem system →
        IsSharedTraversal system order → IsTraversal (collected system) (woven system order) }
    ensures peak { (system : SharedTaskSystem) (order : List ℕ) → IsSharedSystem system →
        IsSharedTraversal system order → peak_of (collected system) (woven system order) ≡ shared_peak_of system order }
    ensures back { (system : SharedTaskSystem) (order : List ℕ) → IsSharedSystem system →
        IsSharedTraversal system order → dropped system (woven system order) ≡ order }
{
    ready_law();
    dropping_law();
}

/// An order has no fault exactly where it is a traversal; then it is as long as there are tasks.
pub fn order_law()
    ensures fault { (system : SharedTaskSystem) (order : List ℕ) →
        (first_shared_fault system order ≡ None) ↔ IsSharedTraversal system order }
    ensures long { (system : SharedTaskSystem) (order : List ℕ) →
        IsSharedTraversal system order → length order ≡ length system.tasks }
{
    traversal_law();
}

/// No peak of a traversal is above 2^60, the limit on all extras and sizes together.
pub fn peak_limit_law()
    ensures { (system : SharedTaskSystem) (order : List ℕ) → IsSharedSystem system →
        IsSharedTraversal system order → shared_peak_of system order ≤ most_total }
{}

/// The least peaks are the same; an order of least peak of the collected system is one of the shared system, without the collectors.
pub fn least_law()
    ensures same { (system : SharedTaskSystem) (peak : ℕ) → IsSharedSystem system → (IsLeastShared system peak ↔ IsLeast (collected system) peak) }
    ensures dropped { (system : SharedTaskSystem) (order : List ℕ) → IsSharedSystem system →
        IsTraversal (collected system) order → IsLeast (collected system) (peak_of (collected system) order) →
        IsSharedTraversal system (dropped system order)
        × (shared_peak_of system (dropped system order) ≡ peak_of (collected system) order)
        × IsLeastShared system (shared_peak_of system (dropped system order)) }
{
    dropping_law();
    weaving_law();
}

/// The system of a task graph, and each system of which all tasks can be ordered, as a traversal shows, is a shared system within the
/// limits: the one consumer of an item is its only reader.
pub fn one_reader_system_law()
    ensures graph { (graph : TaskGraph) → IsGraph graph → IsSharedSystem (shared_of (own_system graph)) }
    ensures system { (system : TaskSystem) (order : List ℕ) → IsSystem system → IsTraversal system order → IsSharedSystem (shared_of system) }
{}

/// What the definitions say of a system as a shared system is what they say of it as it is: the memory of a state, the need of a task, who
/// is ready, peaks, traversals, first faults and least peaks. With its collectors it is as it was.
pub fn one_reader_law()
    ensures memory { (system : TaskSystem) (done : ℕ → Bool) → shared_memory (shared_of system) done ≡ state_memory system done }
    ensures need { (system : TaskSystem) (v : ℕ) → shared_need_of (shared_of system) v ≡ need_of system v }
    ensures ready { (system : TaskSystem) (done : ℕ → Bool) (v : ℕ) → has_inputs (shared_of system) done v ≡ is_ready system done v }
    ensures peak { (system : TaskSystem) (order : List ℕ) → shared_peak_of (shared_of system) order ≡ peak_of system order }
    ensures traversal { (system : TaskSystem) (order : List ℕ) → IsSharedTraversal (shared_of system) order ↔ IsTraversal system order }
    ensures fault { (system : TaskSystem) (order : List ℕ) → first_shared_fault (shared_of system) order ≡ first_fault system order }
    ensures least { (system : TaskSystem) (peak : ℕ) → IsLeastShared (shared_of system) peak ↔ IsLeast system peak }
    ensures collected { (system : TaskSystem) → collected (shared_of system) ≡ system }
{}

/// A shared system in which no two tasks read an item is one of these. Each system is got back from its shared system, and one within the
/// limits stays so.
pub fn unshared_law()
    ensures shared { (system : SharedTaskSystem) → All HasOneReader system.items → shared_of (unshared system) ≡ system }
    ensures back { (system : TaskSystem) → unshared (shared_of system) ≡ system }
    ensures within { (system : SharedTaskSystem) → IsSharedSystem system → IsSystem (unshared system) }
{}

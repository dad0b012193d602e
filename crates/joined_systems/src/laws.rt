//! Laws over the definitions: each contract is a law, and each body is empty.
ghost use Rattle.std.specs.Prelude.{◌≡◌, ℕ, ◌+◌, ◌≤◌, ◌↔◌, List, length};
ghost use Rattle.shared_systems.specs.Shared.{SharedTaskSystem, HasTask, shared_need_of};
ghost use Rattle.shared_systems.specs.SharedMemory.{shared_peak_of};
ghost use Rattle.shared_systems.specs.SharedTraversal.{IsSharedTraversal, IsLeastShared};
ghost use Rattle.shared_systems.specs.Bounds.{IsSharedSystem};
ghost use Rattle.joined_systems.specs.Joins.{AreJoins, AreSafeJoins, join_count};
ghost use Rattle.joined_systems.specs.Joined.{joined, without_joins, IsJoinedOf};

/// Tasks with the same join have the same readers, and each join has a task.
pub fn safe_law()
    ensures { (system : SharedTaskSystem) (joins : List ℕ) → AreJoins system joins → AreSafeJoins system joins }
{}

/// After the tasks come the joins. A task needs what it needed, and a join needs nothing.
pub fn need_law()
    ensures tasks { (system : SharedTaskSystem) (joins : List ℕ) →
        length (joined joins system).tasks ≡ length system.tasks + join_count joins }
    ensures task { (system : SharedTaskSystem) (joins : List ℕ) (v : ℕ) → HasTask system v →
        shared_need_of (joined joins system) v ≡ shared_need_of system v }
    ensures join { (system : SharedTaskSystem) (joins : List ℕ) (k : ℕ) → IsSharedSystem system → 1 ≤ k → k ≤ join_count joins →
        shared_need_of (joined joins system) (length system.tasks + k) ≡ 0 }
{}

/// A traversal of the joined system is one of the system where the joins are left out, with a peak at most as high.
pub fn dropping_law()
    ensures traversal { (system : SharedTaskSystem) (joins order : List ℕ) → IsSharedSystem system →
        IsSharedTraversal (joined joins system) order → IsSharedTraversal system (without_joins (length system.tasks) order) }
    ensures peak { (system : SharedTaskSystem) (joins order : List ℕ) → IsSharedSystem system →
        IsSharedTraversal (joined joins system) order →
        shared_peak_of system (without_joins (length system.tasks) order) ≤ shared_peak_of (joined joins system) order }
{}

/// A traversal of the system is one of the joined system without its joins, with the same peak.
pub fn weaving_law()
    ensures { (system : SharedTaskSystem) (joins order : List ℕ) → IsSharedSystem system → AreSafeJoins system joins →
        IsSharedTraversal system order →
        (other : List ℕ) × (IsSharedTraversal (joined joins system) other × (without_joins (length system.tasks) other ≡ order)
        × (shared_peak_of (joined joins system) other ≡ shared_peak_of system order)) }
{
    dropping_law();
}

/// The least peaks are the same.
pub fn least_law()
    ensures { (system : SharedTaskSystem) (joins : List ℕ) (peak : ℕ) → IsSharedSystem system → AreSafeJoins system joins →
        (IsLeastShared system peak ↔ IsLeastShared (joined joins system) peak) }
{
    dropping_law();
    weaving_law();
}

/// The same of the system that stands for one within the limits, whether joins were put in or not. It is within the limits too.
pub fn joined_law()
    ensures within { (system other : SharedTaskSystem) → IsSharedSystem system → IsJoinedOf system other → IsSharedSystem other }
    ensures traversal { (system other : SharedTaskSystem) (order : List ℕ) → IsSharedSystem system → IsJoinedOf system other →
        IsSharedTraversal other order → IsSharedTraversal system (without_joins (length system.tasks) order) }
    ensures peak { (system other : SharedTaskSystem) (order : List ℕ) → IsSharedSystem system → IsJoinedOf system other →
        IsSharedTraversal other order → shared_peak_of system (without_joins (length system.tasks) order) ≤ shared_peak_of other order }
    ensures back { (system other : SharedTaskSystem) (order : List ℕ) → IsSharedSystem system → IsJoinedOf system other →
        IsSharedTraversal system order →
        (woven : List ℕ) × (IsSharedTraversal other woven × (without_joins (length system.tasks) woven ≡ order)
        × (shared_peak_of other woven ≡ shared_peak_of system order)) }
    ensures least { (system other : SharedTaskSystem) (peak : ℕ) → IsSharedSystem system → IsJoinedOf system other →
        (IsLeastShared system peak ↔ IsLeastShared other peak) }
{
    safe_law();
    dropping_law();
    weaving_law();
    least_law();
}

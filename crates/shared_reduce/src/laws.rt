//! Laws over the definitions: each contract is a law, and each body is empty.
ghost use Rattle.std.specs.Prelude.{◌≡◌, ℕ, ◌≤◌, ◌↔◌, All, List, length, map};
ghost use Rattle.limits.specs.Limits.{most_tasks};
ghost use Rattle.mp_system.specs.Memory.{peak_of};
ghost use Rattle.mp_system.specs.Renaming.{name_in};
ghost use Rattle.mp_system.specs.Traversal.{IsTraversal, IsLeast};
ghost use Rattle.sp_terms.specs.Term.{Term};
ghost use Rattle.sp_terms.specs.SystemOfTerm.{system_of_term};
ghost use Rattle.graphs.specs.Graph.{completed_system};
ghost use Rattle.sp_reduce.specs.Reduced.{HasSystem};
ghost use Rattle.shared_systems.specs.Shared.{SharedTaskSystem};
ghost use Rattle.shared_systems.specs.SharedMemory.{shared_peak_of};
ghost use Rattle.shared_systems.specs.SharedTraversal.{IsSharedTraversal, IsLeastShared};
ghost use Rattle.shared_systems.specs.Bounds.{IsSharedSystem};
ghost use Rattle.carried_graphs.specs.Carried.{AreLastReaders, carried};
ghost use Rattle.shared_reduce.specs.SharedTerm.{IsCarriedTerm, IsSharedTerm, told};

use carried_graphs::laws::carried_law;
use graphs::laws::completion_law;
use joined_systems::laws::joined_law;
use mp_system::laws::renaming_law;
use sp_reduce::laws::named_term_law;

/// The orders of the term are those of the shared system, under the names of its tasks, with the same peaks; so both have the same least
/// peak.
pub fn shared_term_law()
    ensures traversal { (system : SharedTaskSystem) (lasts names : List ℕ) (t : Term) (order : List ℕ) →
        IsSharedSystem system → AreLastReaders system lasts → HasSystem names t (completed_system (carried lasts system)) →
        (IsTraversal (system_of_term t) order ↔ IsSharedTraversal system (map (name_in names) order)) }
    ensures peak { (system : SharedTaskSystem) (lasts names : List ℕ) (t : Term) (order : List ℕ) →
        IsSharedSystem system → AreLastReaders system lasts → HasSystem names t (completed_system (carried lasts system)) →
        IsTraversal (system_of_term t) order → shared_peak_of system (map (name_in names) order) ≡ peak_of (system_of_term t) order }
    ensures least { (system : SharedTaskSystem) (lasts names : List ℕ) (t : Term) (peak : ℕ) →
        IsSharedSystem system → AreLastReaders system lasts → HasSystem names t (completed_system (carried lasts system)) →
        (IsLeastShared system peak ↔ IsLeast (system_of_term t) peak) }
{
    named_term_law();
    carried_law();
}

/// Each order of a carried term is by its names one of the shared system with the same peak, and each order of the system is so.
pub fn carried_term_law()
    ensures { (system : SharedTaskSystem) (names : List ℕ) (t : Term) (order : List ℕ) →
        IsSharedSystem system → IsCarriedTerm system names t → IsSharedTraversal system order →
        (other : List ℕ) × IsTraversal (system_of_term t) other × (map (name_in names) other ≡ order)
        × (peak_of (system_of_term t) other ≡ shared_peak_of system order) }
{
    shared_term_law();
    renaming_law();
    completion_law();
    carried_law();
}

/// Each order of the term tells one of the shared system, with a peak that is no higher; each order of the system is told by one of the
/// term with the same peak; so both have the same least peak.
pub fn told_term_law()
    ensures traversal { (system : SharedTaskSystem) (names : List ℕ) (t : Term) (order : List ℕ) →
        IsSharedSystem system → IsSharedTerm system names t →
        IsTraversal (system_of_term t) order → IsSharedTraversal system (told (length system.tasks) names order) }
    ensures peak { (system : SharedTaskSystem) (names : List ℕ) (t : Term) (order : List ℕ) →
        IsSharedSystem system → IsSharedTerm system names t →
        IsTraversal (system_of_term t) order →
        shared_peak_of system (told (length system.tasks) names order) ≤ peak_of (system_of_term t) order }
    ensures back { (system : SharedTaskSystem) (names : List ℕ) (t : Term) (order : List ℕ) →
        IsSharedSystem system → IsSharedTerm system names t → IsSharedTraversal system order →
        (other : List ℕ) × IsTraversal (system_of_term t) other × (told (length system.tasks) names other ≡ order)
        × (peak_of (system_of_term t) other ≡ shared_peak_of system order) }
    ensures least { (system : SharedTaskSystem) (names : List ℕ) (t : Term) (peak : ℕ) →
        IsSharedSystem system → IsSharedTerm system names t →
        (IsLeastShared system peak ↔ IsLeast (system_of_term t) peak) }
{
    shared_term_law();
    carried_term_law();
    joined_law();
}

/// The names of the term are at most as many as there can be tasks, and each is at most as great as the number of a task can be.
pub fn names_law()
    ensures few { (system : SharedTaskSystem) (names : List ℕ) (t : Term) → IsSharedSystem system → IsSharedTerm system names t →
        length names ≤ most_tasks }
    ensures within { (system : SharedTaskSystem) (names : List ℕ) (t : Term) → IsSharedSystem system → IsSharedTerm system names t →
        All (λ v. v ≤ most_tasks) names }
{
    joined_law();
}

//! Laws of the terms of graphs: what holds of each, without a call.

ghost use Rattle.std.specs.Prelude.{◌≡◌, ◌≤◌, ◌↔◌, ℕ, All, List, length, map};
ghost use Rattle.limits.specs.Limits.{most_tasks};
ghost use Rattle.mp_system.specs.Memory.{peak_of};
ghost use Rattle.mp_system.specs.Renaming.{name_in};
ghost use Rattle.mp_system.specs.Traversal.{IsTraversal, IsLeast};
ghost use Rattle.sp_terms.specs.SystemOfTerm.{system_of_term};
ghost use Rattle.sp_terms.specs.Term.{Term};
ghost use Rattle.graphs.specs.Graph.{TaskGraph, IsGraph, own_system, completed_system};
ghost use Rattle.sp_reduce.specs.Reduced.{HasSystem};

use graphs::laws::completion_law;
use mp_system::laws::renaming_law;

/// The orders of a graph's term are those of the graph itself, under the names of its tasks, with the same peaks; so both have the same
/// least peak.
pub fn named_term_law()
    ensures traversal { (graph : TaskGraph) (names : List ℕ) (t : Term) (order : List ℕ) → HasSystem names t (completed_system graph) →
        (IsTraversal (system_of_term t) order ↔ IsTraversal (own_system graph) (map (name_in names) order)) }
    ensures peak { (graph : TaskGraph) (names : List ℕ) (t : Term) (order : List ℕ) → HasSystem names t (completed_system graph) →
        IsTraversal (system_of_term t) order → peak_of (own_system graph) (map (name_in names) order) ≡ peak_of (system_of_term t) order }
    ensures least { (graph : TaskGraph) (names : List ℕ) (t : Term) (peak : ℕ) → HasSystem names t (completed_system graph) →
        (IsLeast (system_of_term t) peak ↔ IsLeast (own_system graph) peak) }
{
    renaming_law();
    completion_law();
}

/// The names of a graph's term are at most as many as there can be tasks, and each is at most as great as the number of a task can be.
pub fn names_law()
    ensures few { (graph : TaskGraph) (names : List ℕ) (t : Term) → IsGraph graph → HasSystem names t (completed_system graph) →
        length names ≤ most_tasks }
    ensures within { (graph : TaskGraph) (names : List ℕ) (t : Term) → IsGraph graph → HasSystem names t (completed_system graph) →
        All (λ v. v ≤ most_tasks) names }
{}

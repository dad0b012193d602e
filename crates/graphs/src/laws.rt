//! Laws of graphs: what holds of each, without a call.

ghost use Rattle.std.specs.Prelude.{◌≡◌, ◌≤◌, ◌↔◌, ℕ, List, All, length, count_by};
ghost use Rattle.mp_system.specs.System.{IsSystem};
ghost use Rattle.mp_system.specs.Memory.{peak_of};
ghost use Rattle.mp_system.specs.Traversal.{IsTraversal, IsLeast};
ghost use Rattle.graphs.specs.Graph.{TaskGraph, IsGraph, IsAmong, IsArcWithin, Rises, is_into, is_out_of, completed, own_system};
ghost use Rattle.graphs.specs.Graph.{completed_system};

/// The completed system is within the limits of systems.
pub fn system_law()
    ensures { (graph : TaskGraph) → IsGraph graph → IsSystem (completed_system graph) }
{}

/// A list is a traversal of the graph's own system exactly where it is one of the completed system, with the same peak.
pub fn completion_law()
    ensures traversal { (graph : TaskGraph) (order : List ℕ) →
        IsTraversal (own_system graph) order ↔ IsTraversal (completed_system graph) order }
    ensures peak { (graph : TaskGraph) (order : List ℕ) → peak_of (completed_system graph) order ≡ peak_of (own_system graph) order }
    ensures least { (graph : TaskGraph) (peak : ℕ) → IsLeast (own_system graph) peak ↔ IsLeast (completed_system graph) peak }
{}

/// In the completed graph an arc leads into each task, and one out of it, and each arc keeps to the limits. Its tasks have ranks such
/// that each arc between two of them leads from a lower rank to a higher one.
pub fn completed_law()
    ensures into { (graph : TaskGraph) (v : ℕ) → IsAmong (length graph.tasks) v → 1 ≤ count_by (is_into v) (completed graph).arcs }
    ensures out_of { (graph : TaskGraph) (v : ℕ) → IsAmong (length graph.tasks) v → 1 ≤ count_by (is_out_of v) (completed graph).arcs }
    ensures within { (graph : TaskGraph) → IsGraph graph → All (IsArcWithin (length graph.tasks)) (completed graph).arcs }
    ensures ranked { (graph : TaskGraph) → IsGraph graph → (rank : ℕ → ℕ) × All (Rises rank) (completed graph).arcs }
{}

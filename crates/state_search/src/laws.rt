//! Laws over the definitions: each contract is a law.
ghost use Rattle.std.specs.Prelude.{ℕ, ◌≤◌, List};
ghost use Rattle.shared_systems.specs.Shared.{SharedTaskSystem};
ghost use Rattle.shared_systems.specs.SharedMemory.{shared_peak_of};
ghost use Rattle.shared_systems.specs.SharedTraversal.{IsSharedTraversal};
ghost use Rattle.shared_systems.specs.Bounds.{IsSharedSystem};
ghost use Rattle.state_search.specs.Shown.{IsShownByStates};

/// Where no more states than so many are looked at for a bound, and the start is none of them, no order has a peak below the bound.
pub fn states_law()
    ensures { (system : SharedTaskSystem) (bound most : ℕ) (order : List ℕ) →
        IsSharedSystem system → IsShownByStates system bound most → IsSharedTraversal system order → bound ≤ shared_peak_of system order }
{}

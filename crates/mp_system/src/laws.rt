//! Laws over the definitions: each contract is a law, and each body is empty.
ghost use Rattle.std.specs.Prelude.{◌≡◌, ℕ, ◌+◌, ◌≤◌, ◌↔◌, Bool, true, List, None, length, map};
ghost use Rattle.mp_system.specs.System.{TaskSystem, IsSystem, IsTask, inputs_of, outputs_of};
ghost use Rattle.mp_system.specs.Memory.{state_memory, running_memory, is_ready, peak_of};
ghost use Rattle.mp_system.specs.Peak.{IsMemoryAlong};
ghost use Rattle.mp_system.specs.Step.{AddsTask, CanRun};
ghost use Rattle.mp_system.specs.Traversal.{IsTraversal, IsLeast, fault_of, first_fault};
ghost use Rattle.mp_system.specs.Renaming.{name_in, IsRenamed};

/// An order has no fault exactly where it is a traversal; then it is as long as there are tasks.
pub fn traversal_law()
    ensures fault { (system : TaskSystem) (order : List ℕ) →
        (first_fault system order ≡ None) ↔ IsTraversal system order }
    ensures long { (system : TaskSystem) (order : List ℕ) →
        IsTraversal system order → length order ≡ length system.tasks }
{}

/// The peak of an order is the greatest of the memories along it.
pub fn peak_law()
    ensures bound { (system : TaskSystem) (order : List ℕ) (memory : ℕ) →
        IsMemoryAlong system order memory → memory ≤ peak_of system order }
    ensures attained { (system : TaskSystem) (order : List ℕ) → IsMemoryAlong system order (peak_of system order) }
{}

/// What is said of a state depends only on which tasks are done.
pub fn congruence()
    ensures state { (system : TaskSystem) (done other : ℕ → Bool) → ((u : ℕ) → done u ≡ other u) →
        state_memory system done ≡ state_memory system other }
    ensures running { (system : TaskSystem) (done other : ℕ → Bool) (v : ℕ) → ((u : ℕ) → done u ≡ other u) →
        running_memory system done v ≡ running_memory system other v }
    ensures ready { (system : TaskSystem) (done other : ℕ → Bool) (v : ℕ) → ((u : ℕ) → done u ≡ other u) →
        is_ready system done v ≡ is_ready system other v }
    ensures fault { (system : TaskSystem) (done other : ℕ → Bool) (v : ℕ) → ((u : ℕ) → done u ≡ other u) →
        fault_of system done v ≡ fault_of system other v }
{}

/// A task that is ready stays so as more tasks are done.
pub fn ready_law()
    ensures { (system : TaskSystem) (done later : ℕ → Bool) (v : ℕ) →
        ((u : ℕ) → done u ≡ true → later u ≡ true) →
        is_ready system done v ≡ true → is_ready system later v ≡ true }
{}

/// A task that runs adds what it produces to the memory, and takes away what it consumes.
pub fn state_step_law()
    ensures { (system : TaskSystem) (done later : ℕ → Bool) (v : ℕ) →
        CanRun system done v → AddsTask done v later →
        state_memory system later + inputs_of system v ≡ state_memory system done + outputs_of system v }
{}

/// The memory while a task runs is at least that of the state before it, and that of the state after it.
pub fn running_law()
    ensures before { (system : TaskSystem) (done : ℕ → Bool) (v : ℕ) →
        state_memory system done ≤ running_memory system done v }
    ensures after { (system : TaskSystem) (done later : ℕ → Bool) (v : ℕ) →
        IsSystem system → IsTask system v → CanRun system done v → AddsTask done v later →
        state_memory system later ≤ running_memory system done v }
{}

/// A system has at most one least peak.
pub fn least_law()
    ensures { (system : TaskSystem) (peak other : ℕ) → IsLeast system peak → IsLeast system other → peak ≡ other }
{}

/// Systems that are the same up to names, the order of items, and items of size 0 without a producer have the same
/// traversals under these names, with the same peaks, and the same least peak.
pub fn renaming_law()
    ensures traversal { (names : List ℕ) (own named : TaskSystem) (order : List ℕ) → IsRenamed names own named →
        (IsTraversal own order ↔ IsTraversal named (map (name_in names) order)) }
    ensures each { (names : List ℕ) (own named : TaskSystem) (order : List ℕ) → IsRenamed names own named →
        IsTraversal named order →
        (own_order : List ℕ) × IsTraversal own own_order × (order ≡ map (name_in names) own_order) }
    ensures peak { (names : List ℕ) (own named : TaskSystem) (order : List ℕ) → IsRenamed names own named →
        IsTraversal own order → peak_of named (map (name_in names) order) ≡ peak_of own order }
    ensures least { (names : List ℕ) (own named : TaskSystem) (peak : ℕ) → IsRenamed names own named →
        (IsLeast own peak ↔ IsLeast named peak) }
{}

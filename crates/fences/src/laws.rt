//! Laws over the definitions: each contract is a law, and each body is empty or calls the laws that it follows from.
ghost use Rattle.std.specs.Prelude.{◌≡◌, ◌+◌, ◌*◌, ◌-◌, ◌≤◌, ◌↔◌, ℕ, true, All, List, ◌++◌, count_by, length};
ghost use Rattle.lists.specs.Numbers.{Each};
ghost use Rattle.mp_system.specs.System.{TaskSystem, IsTask, IsItemWithin, need_of};
ghost use Rattle.mp_system.specs.Memory.{peak_of};
ghost use Rattle.mp_system.specs.Traversal.{IsTraversal};
ghost use Rattle.fences.specs.Moments.{Moment, IsMoment, used_memory};
ghost use Rattle.fences.specs.Runs.{Change, CanCome, moment_after, moment_after_all, first_moment, IsRun, BoundsRuns, NeverStops};
ghost use Rattle.fences.specs.Amounts.{AreHandedOn, certified_bound};
ghost use Rattle.shared_systems.specs.Shared.{SharedTaskSystem};
ghost use Rattle.shared_systems.specs.Collected.{collected};
ghost use Rattle.shared_systems.specs.Bounds.{IsSharedSystem};
ghost use Rattle.fences.specs.declared.fenced.Fence.{Fence};
ghost use Rattle.fences.specs.Fences.{IsFenced, HasFences, HasTraversal, chained};
ghost use Rattle.fences.specs.JudgedFences.{with_fences};
ghost use Rattle.fences.specs.Workers.{BoundsRunsBeside, relieved, running_count};
ghost use Rattle.fences.specs.SharedRuns.{GoesOn, IsFencedRun, KeepsBound, shared_numbers, shared_used};
ghost use Rattle.fences.specs.Certificates.{Certificate, Certifies, IsForTask};

use mp_system::laws::{peak_law, ready_law, state_step_law};
use shared_systems::laws::system_law;

/// A run has a moment after each of its changes, wherever it is cut off.
pub fn run_law()
    ensures first { (system : TaskSystem) → IsMoment system first_moment }
    ensures next { (system : TaskSystem) (moment : Moment) (change : Change) → IsMoment system moment →
        CanCome system moment change → IsMoment system (moment_after moment change) }
    ensures moments { (system : TaskSystem) (before rest : List Change) → IsRun system (before ++ rest) →
        IsMoment system (moment_after_all first_moment before) }
{
    ready_law();
}

/// Where some order passes a system, no run of it comes to a stop before all tasks are done.
pub fn progress_law()
    ensures { (system : TaskSystem) (order : List ℕ) → IsTraversal system order → NeverStops system }
{
    ready_law();
}

/// Every moment at which only tasks are done or run is one of a run, if the tasks can run in some order at all.
pub fn reach_law()
    ensures { (system : TaskSystem) (order : List ℕ) (moment : Moment) → IsTraversal system order → IsMoment system moment →
        ((v : ℕ) → moment.done v ≡ true → IsTask system v) → ((v : ℕ) → moment.running v ≡ true → IsTask system v) →
        (changes : List Change) × IsRun system changes × (moment_after_all first_moment changes ≡ moment) }
{}

/// At every moment used memory is at most what amounts that are handed on certify: so along every parallel run, and along every traversal.
pub fn fence_law()
    ensures moment { (system : TaskSystem) (amounts : List ℕ) (moment : Moment) → All (IsItemWithin system) system.items →
        AreHandedOn system amounts → IsMoment system moment → used_memory system moment ≤ certified_bound system amounts }
    ensures run { (system : TaskSystem) (amounts : List ℕ) → All (IsItemWithin system) system.items → AreHandedOn system amounts →
        BoundsRuns system (certified_bound system amounts) }
    ensures traversal { (system : TaskSystem) (amounts : List ℕ) (order : List ℕ) → All (IsItemWithin system) system.items →
        AreHandedOn system amounts → IsTraversal system order → peak_of system order ≤ certified_bound system amounts }
{
    run_law();
    ready_law();
    peak_law();
}

/// Where a moment uses all that amounts certify, no other amounts certify less, and no other moment uses more.
pub fn tight_law()
    ensures least { (system : TaskSystem) (amounts : List ℕ) (moment : Moment) → All (IsItemWithin system) system.items →
        IsMoment system moment → used_memory system moment ≡ certified_bound system amounts →
        (other : List ℕ) → AreHandedOn system other → certified_bound system amounts ≤ certified_bound system other }
    ensures greatest { (system : TaskSystem) (amounts : List ℕ) (moment : Moment) → All (IsItemWithin system) system.items →
        AreHandedOn system amounts → used_memory system moment ≡ certified_bound system amounts →
        (other : Moment) → IsMoment system other → used_memory system other ≤ used_memory system moment }
{
    fence_law();
}

/// What fences leave of the runs, of the traversals and of the moments are some of them, with the memory that they had. Amounts certify what
/// they did, if nothing is handed on along the fences.
pub fn fenced_law()
    ensures moment { (system fenced : TaskSystem) (moment : Moment) → IsFenced system fenced → IsMoment fenced moment →
        IsMoment system moment }
    ensures used { (system fenced : TaskSystem) (moment : Moment) → IsFenced system fenced →
        used_memory fenced moment ≡ used_memory system moment }
    ensures run { (system fenced : TaskSystem) (changes : List Change) → IsFenced system fenced → IsRun fenced changes →
        IsRun system changes }
    ensures traversal { (system fenced : TaskSystem) (order : List ℕ) → IsFenced system fenced → IsTraversal fenced order →
        IsTraversal system order }
    ensures peak { (system fenced : TaskSystem) (order : List ℕ) → IsFenced system fenced →
        peak_of fenced order ≡ peak_of system order }
    ensures amounts { (system fenced : TaskSystem) (amounts : List ℕ) → IsFenced system fenced → AreHandedOn system amounts →
        (longer : List ℕ) × AreHandedOn fenced longer × (certified_bound fenced longer ≡ certified_bound system amounts) }
{}

/// Fences along a traversal leave that traversal, and amounts certify that every run then keeps its peak. So fences that keep a bound are there
/// exactly where some traversal keeps it.
pub fn chain_law()
    ensures fenced { (system : TaskSystem) (order : List ℕ) → IsFenced system (chained system order) }
    ensures traversal { (system : TaskSystem) (order : List ℕ) → IsTraversal system order →
        IsTraversal (chained system order) order }
    ensures amounts { (system : TaskSystem) (order : List ℕ) → All (IsItemWithin system) system.items → IsTraversal system order →
        (amounts : List ℕ) × AreHandedOn (chained system order) amounts × (certified_bound (chained system order) amounts ≡ peak_of system order) }
    ensures exist { (system : TaskSystem) (bound : ℕ) → All (IsItemWithin system) system.items →
        (HasFences system bound ↔ HasTraversal system bound) }
{
    fence_law();
    fenced_law();
    ready_law();
    state_step_law();
    peak_law();
}

/// Room for each running task, beside what amounts certify where each task needs less by that room, is enough. No room changes nothing.
pub fn workers_law()
    ensures none { (system : TaskSystem) → relieved 0 system ≡ system }
    ensures need { (system : TaskSystem) (room v : ℕ) → IsTask system v → need_of (relieved room system) v ≡ need_of system v - room }
    ensures moment { (system : TaskSystem) (room : ℕ) (amounts : List ℕ) (moment : Moment) → All (IsItemWithin system) system.items →
        AreHandedOn system amounts → IsMoment system moment →
        used_memory system moment ≤ certified_bound (relieved room system) amounts + room * running_count system moment }
    ensures run { (system : TaskSystem) (room : ℕ) (amounts : List ℕ) → All (IsItemWithin system) system.items → AreHandedOn system amounts →
        BoundsRunsBeside system room (certified_bound (relieved room system) amounts) }
    ensures traversal { (system : TaskSystem) (room : ℕ) (amounts : List ℕ) (order : List ℕ) → All (IsItemWithin system) system.items →
        AreHandedOn system amounts → IsTraversal system order →
        peak_of system order ≤ certified_bound (relieved room system) amounts + room }
{
    run_law();
    fence_law();
}

/// What bounds the moments of the collected system with fences, beside a room for each task that runs, bounds the runs of the shared system that
/// keep to the fences: a join is passed as soon as the last of its readers is done. Where some order passes that system, no such run comes to a
/// stop before all tasks are done.
pub fn shared_law()
    ensures bound { (system : SharedTaskSystem) (fences : List Fence) (room bound : ℕ) → IsSharedSystem system →
        Each (length fences) (IsForTask system fences) →
        ((moment : Moment) → IsMoment (with_fences (collected system) fences) moment →
        used_memory (with_fences (collected system) fences) moment
        ≤ bound + room * running_count (with_fences (collected system) fences) moment) →
        (before rest : List Change) → IsFencedRun system fences (before ++ rest) →
        shared_used system (moment_after_all first_moment before)
        ≤ bound + room * count_by (moment_after_all first_moment before).running (shared_numbers system) }
    ensures goes_on { (system : SharedTaskSystem) (fences : List Fence) (order : List ℕ) → IsSharedSystem system →
        IsTraversal (with_fences (collected system) fences) order → GoesOn system fences }
{
    ready_law();
}

/// What a certificate certifies: along every run of the shared system that keeps to its fences the bound is kept, at each moment at which no more
/// tasks run than there are workers; and none comes to a stop before all tasks are done.
pub fn certificate_law()
    ensures bound { (system : SharedTaskSystem) (certificate : Certificate) → IsSharedSystem system → Certifies system certificate →
        KeepsBound system certificate.fences certificate.workers certificate.bound }
    ensures goes_on { (system : SharedTaskSystem) (certificate : Certificate) → IsSharedSystem system → Certifies system certificate →
        GoesOn system certificate.fences }
{
    system_law();
    workers_law();
    shared_law();
}

//! Laws over the definitions: each contract is a law, and each body is empty.
ghost use Rattle.std.specs.Prelude.{◌≡◌, ℕ, ◌≤◌, Bool, List, pos, ◌≤ℤ◌};
ghost use Rattle.shared_systems.specs.Shared.{SharedTaskSystem};
ghost use Rattle.shared_systems.specs.SharedMemory.{shared_peak_of};
ghost use Rattle.shared_systems.specs.SharedTraversal.{IsSharedTraversal, IsLeastShared};
ghost use Rattle.peak_bounds.specs.Moments.{Moment, IsMoment, is_done, is_waiting, level_of};
ghost use Rattle.peak_bounds.specs.Steps.{Starts, Step, AreSteps};
ghost use Rattle.shared_systems.specs.Bounds.{IsSharedSystem};
ghost use Rattle.peak_bounds.specs.declared.evidence.Evidence.{Evidence};
ghost use Rattle.peak_bounds.specs.declared.evidence.Objection.{Objection};
ghost use Rattle.peak_bounds.specs.Evidence.{IsEvidence, IsObjection};

/// What is marked at a moment is so, and the peak is at least its level.
pub fn moment_law()
    ensures marks { (system : SharedTaskSystem) (order : List ℕ) (early late : ℕ → Bool) (moment : Moment) →
        IsSharedTraversal system order → Starts order early late moment.task → IsMoment system early late moment →
        Starts order (is_done moment) (is_waiting moment) moment.task }
    ensures peak { (system : SharedTaskSystem) (order : List ℕ) (early late : ℕ → Bool) (moment : Moment) →
        IsSharedTraversal system order → Starts order early late moment.task → IsMoment system early late moment →
        level_of system moment ≤ℤ pos (shared_peak_of system order) }
{}

/// No traversal has a peak below a bound by steps; so a traversal whose peak is such a bound has the least peak of the system.
pub fn bound_law()
    ensures bound { (system : SharedTaskSystem) (steps : List Step) (bound : ℕ) (order : List ℕ) →
        AreSteps system steps bound → IsSharedTraversal system order → bound ≤ shared_peak_of system order }
    ensures least { (system : SharedTaskSystem) (steps : List Step) (order : List ℕ) →
        IsSharedTraversal system order → AreSteps system steps (shared_peak_of system order) →
        IsLeastShared system (shared_peak_of system order) }
{}

/// No traversal has a peak below a bound for which there is evidence; so a traversal whose peak is such a bound has the least peak of the
/// system.
pub fn evidence_law()
    ensures bound { (system : SharedTaskSystem) (evidence : Evidence) (bound : ℕ) (order : List ℕ) → IsSharedSystem system →
        IsEvidence system evidence bound → IsSharedTraversal system order → bound ≤ shared_peak_of system order }
    ensures least { (system : SharedTaskSystem) (evidence : Evidence) (order : List ℕ) → IsSharedSystem system →
        IsSharedTraversal system order → IsEvidence system evidence (shared_peak_of system order) →
        IsLeastShared system (shared_peak_of system order) }
{}

/// To evidence that holds there is no objection, and to other evidence at most one: so two judges say the same.
pub fn one_objection()
    ensures none { (system : SharedTaskSystem) (evidence : Evidence) (bound : ℕ) (objection : Objection) →
        IsEvidence system evidence bound → ¬ IsObjection system evidence bound objection }
    ensures one { (system : SharedTaskSystem) (evidence : Evidence) (bound : ℕ) (one other : Objection) →
        IsObjection system evidence bound one → IsObjection system evidence bound other → one ≡ other }
{}

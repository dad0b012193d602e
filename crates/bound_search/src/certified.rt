//! A bound that is shown. What the search finds is judged; where nothing of it stands, what one task reads and needs does, or the start.

ghost use Rattle.std.specs.Prelude.{◌≡◌, ◌≤◌, ℕ, List, true, IfOk, IfSome};
ghost use Rattle.limits.specs.Limits.{most_total};
ghost use Rattle.shared_systems.specs.Shared.{HasTask};
ghost use Rattle.shared_systems.specs.SharedMemory.{shared_peak_of};
ghost use Rattle.shared_systems.specs.SharedTraversal.{IsSharedTraversal};
ghost use Rattle.peak_bounds.specs.Evidence.{IsEvidence, memory_at_start, memory_of_task};
ghost use Rattle.bounded_plans.specs.declared.evidence.BoundEvidence.TheVariants.{Sums};
ghost use Rattle.bounded_plans.specs.BoundedPlan.{IsWithin};
ghost use Rattle.bound_search.specs.Certified.{IsShown, IsCertified};

use crate::NoMemory;
use crate::needs::most_needed;
use crate::search::Search;
use bounded_plans::evidence_within;
use limits::MOST_TOTAL;
use peak_bounds::laws::evidence_law;
use peak_bounds::{Evidence, judge_evidence};
use shared_systems::SharedSystem;
use std::alloc::Global;

/// A lower bound on the peak of every traversal of a system, and the evidence that shows it.
#[derive(Drop)]
pub struct CertifiedBound {
    /// The bound, at most 2^60.
    pub bound: u64,
    /// The evidence, within the limits of a file.
    pub evidence: Evidence,
}

// What a task reads and needs, or what is there at the start: the most of it.
fn plain_bound(alloc: Global, system: &SharedSystem) -> Result<CertifiedBound, NoMemory>
    ensures { IfOk result (IsCertified system.now) }
{
    let most = most_needed(alloc, system)?;
    let evidence = match most.task {
        None => Evidence::Start,
        Some(task) => Evidence::Need(task),
    };
    Ok(CertifiedBound {
        bound: most.memory,
        evidence,
    })
}

// Whether evidence shows a bound, and both are within the limits.
fn is_shown(
    alloc: Global,
    system: &SharedSystem,
    evidence: &Evidence,
    bound: u64,
) -> Result<bool, NoMemory>
    ensures { IfOk result (λ shown. shown ≡ true →
        IsShown system.now (record { bound = bound; evidence = evidence.now })) }
{
    if bound > MOST_TOTAL || !evidence_within(evidence) {
        return Ok(false);
    }
    let objection = judge_evidence(alloc, system, evidence, bound)?;
    Ok(objection.is_none())
}

// The next best that the search found, if it is above a bound and shown.
fn next_shown(
    alloc: Global,
    system: &SharedSystem,
    search: &mut Search,
    above: u64,
) -> Result<Option<CertifiedBound>, NoMemory>
    ensures { IfOk result (λ next. IfSome next (λ c. IsShown system.now c × (above ≤ c.bound))) }
{
    let Some((bound, evidence)) = search.next(alloc)? else {
        return Ok(None);
    };
    if bound <= above || !is_shown(alloc, system, &evidence, bound)? {
        return Ok(None);
    }
    Ok(Some(CertifiedBound { bound, evidence }))
}

/// A lower bound on the peak of every traversal of a system, with evidence that shows it, within the limits of a file: the best that is found
/// with an effort, counted in steps, and no less than what any task reads and needs, or is there at the start. How much more is not promised.
/// Evidence is judged beside the effort: for each task of a set that is linear in the tasks and the readers of all items. `lowest` is the
/// lowest peak of an order that is known, or more: nothing above it is looked for, and the search begins there.
pub fn certify_bound_below(
    alloc: Global,
    system: &SharedSystem,
    lowest: u64,
    effort: u64,
) -> Result<CertifiedBound, NoMemory>
    ensures shown { IfOk result (λ c. IsEvidence system.now c.evidence c.bound) }
    ensures within { IfOk result (λ c. IsWithin (Sums c.evidence) × (c.bound ≤ most_total)) }
    ensures needs { IfOk result (λ c. (t : ℕ) → HasTask system.now t → memory_of_task system.now t ≤ c.bound) }
    ensures start { IfOk result (λ c. memory_at_start system.now ≤ c.bound) }
    ensures peaks { IfOk result (λ c.
        (order : List ℕ) → IsSharedTraversal system.now order → c.bound ≤ shared_peak_of system.now order) }
{
    evidence_law();
    system.keeps();
    let plain = plain_bound(alloc, system)?;
    let mut search = Search::new(alloc, system, effort, plain.bound, lowest)?;
    for _ in 0..search.found() {
        if let Some(found) = next_shown(alloc, system, &mut search, plain.bound)? {
            return Ok(found);
        }
    }
    Ok(plain)
}

/// A lower bound on the peak of every traversal of a system, with evidence that shows it, within the limits of a file: the best that is found
/// with an effort, counted in steps, and no less than what any task reads and needs, or is there at the start. How much more is not promised.
/// Evidence is judged beside the effort: for each task of a set that is linear in the tasks and the readers of all items.
pub fn certify_bound(
    alloc: Global,
    system: &SharedSystem,
    effort: u64,
) -> Result<CertifiedBound, NoMemory>
    ensures shown { IfOk result (λ c. IsEvidence system.now c.evidence c.bound) }
    ensures within { IfOk result (λ c. IsWithin (Sums c.evidence) × (c.bound ≤ most_total)) }
    ensures needs { IfOk result (λ c. (t : ℕ) → HasTask system.now t → memory_of_task system.now t ≤ c.bound) }
    ensures start { IfOk result (λ c. memory_at_start system.now ≤ c.bound) }
    ensures peaks { IfOk result (λ c.
        (order : List ℕ) → IsSharedTraversal system.now order → c.bound ≤ shared_peak_of system.now order) }
{
    certify_bound_below(alloc, system, u64::MAX, effort)
}

//! The judge of evidence.

ghost use Rattle.std.specs.Prelude.{◌≡◌, ◌+◌, ◌<◌, ◌≤◌, ◌↔◌, ℕ, List, IfOk, IsTrue, IsNone, MatchOption, MatchResult, length};
ghost use Rattle.limits.specs.Limits.{most_workers};
ghost use Rattle.lists.specs.Numbers.{Each, IsFirstWithout};
ghost use Rattle.shared_systems.specs.Shared.{HasTask};
ghost use Rattle.shared_systems.specs.SharedMemory.{shared_peak_of};
ghost use Rattle.shared_systems.specs.SharedTraversal.{IsSharedTraversal};
ghost use Rattle.peak_bounds.specs.Evidence.{use_count, Passes, IsEventSet, IsEvidence, IsObjection};
ghost use Rattle.peak_bounds.specs.Judged.{test_of, IsFormed, IsCommon};

use crate::NoMemory;
use crate::blockers::{Common, common_of, judge_part};
use crate::chunks::judge_parts;
use crate::evidence::{BlockerTest, EventSet, Evidence, Objection};
use crate::laws::evidence_law;
use crate::lowered::are_amounts;
use crate::needs::{at_start, inputs, need};
use crate::use_table::uses_of;
use mp_outside::Gate;
use shared_systems::SharedSystem;
use std::alloc::Global;
use std::thread::Threads;

/// A test of a blocker that needs no search.
#[derive(Clone, Copy)]
pub(crate) enum FormTest {
    Task,
    Rising,
    Amounts,
}

// Whether this is the number of a task.
fn is_task(system: &SharedSystem, task: u32) -> bool
    ensures { IsTrue result ↔ HasTask system.now task }
{
    task != 0 && task as usize <= system.tasks().len()
}

// Whether a blocker passes a test, where there are so many uses.
fn form_passes(
    system: &SharedSystem,
    set: &EventSet,
    count: usize,
    test: FormTest,
    i: usize,
) -> bool
    requires i { i < length set.now.blockers }
    requires count { count ≡ use_count system.now }
    ensures { (bound : ℕ) → IsTrue result ↔ Passes system.now set.now bound (test_of test) (i + 1) }
{
    let blockers = set.blockers();
    match test {
        FormTest::Task => is_task(system, blockers[i].task()),
        FormTest::Rising => i == 0 || blockers[i - 1].task() < blockers[i].task(),
        FormTest::Amounts => are_amounts(blockers[i].amounts(), count),
    }
}

// The first blocker, counted from 1, that fails a test, if one does.
fn first_unformed(
    system: &SharedSystem,
    set: &EventSet,
    count: usize,
    test: FormTest,
) -> Option<u64>
    requires { count ≡ use_count system.now }
    ensures { (bound : ℕ) → MatchOption result
        (Each (length set.now.blockers) (Passes system.now set.now bound (test_of test)))
        (IsFirstWithout (length set.now.blockers) (Passes system.now set.now bound (test_of test))) }
{
    for i in 0..set.blockers().len() {
        if !form_passes(system, set, count, test, i) {
            return Some(i as u64 + 1);
        }
    }
    None
}

// What is said against the set before any moment is looked at.
fn form_objection(system: &SharedSystem, set: &EventSet, count: usize) -> Option<Objection>
    requires { count ≡ use_count system.now }
    ensures { (bound : ℕ) → MatchOption result (IsFormed system.now set.now bound) (IsObjection system.now (Evidence.Set set.now) bound) }
{
    if set.blockers().is_empty() {
        return Some(Objection::Empty);
    }
    if !are_amounts(set.base(), count) {
        return Some(Objection::Base);
    }
    if let Some(place) = first_unformed(system, set, count, FormTest::Task) {
        let test = BlockerTest::Task;
        return Some(Objection::Blocker { test, place });
    }
    if let Some(place) = first_unformed(system, set, count, FormTest::Rising) {
        let test = BlockerTest::Rising;
        return Some(Objection::Blocker { test, place });
    }
    if let Some(place) = first_unformed(system, set, count, FormTest::Amounts) {
        let test = BlockerTest::Amounts;
        return Some(Objection::Blocker { test, place });
    }
    None
}

// What is said against a set that is not well formed, or else what is the same for all its blockers.
fn opened(
    alloc: Global,
    system: &SharedSystem,
    set: &EventSet,
    bound: u64,
) -> Result<Result<Common, Objection>, NoMemory>
    ensures { IfOk result (λ opened. MatchResult opened
        (λ common. IsFormed system.now set.now bound × IsCommon system.now set.now common)
        (IsObjection system.now (Evidence.Set set.now) bound)) }
{
    let uses = uses_of(alloc, system)?;
    if let Some(objection) = form_objection(system, set, uses.makers.len()) {
        return Ok(Err(objection));
    }
    let common = common_of(alloc, system, set, bound, uses)?;
    Ok(Ok(common))
}

// What is said against the set, if anything is.
fn judge_set(
    alloc: Global,
    system: &SharedSystem,
    set: &EventSet,
    bound: u64,
) -> Result<Option<Objection>, NoMemory>
    ensures { IfOk result (λ found. MatchOption found
        (IsEventSet system.now set.now bound)
        (IsObjection system.now (Evidence.Set set.now) bound)) }
{
    match opened(alloc, system, set, bound)? {
        Ok(common) => judge_part(alloc, system, set, bound, &common, 0, set.blockers().len()),
        Err(objection) => Ok(Some(objection)),
    }
}

// What is said against the set, if anything is, by so many workers.
fn judge_set_by<R: Threads + Sync, G: Gate>(
    rt: &R,
    alloc: Global,
    system: &SharedSystem,
    set: &EventSet,
    bound: u64,
    workers: u32,
    gate: &G,
) -> Result<Option<Objection>, NoMemory>
    requires { (1 ≤ workers) × (workers ≤ most_workers) }
    ensures { IfOk result (λ found. MatchOption found
        (IsEventSet system.now set.now bound)
        (IsObjection system.now (Evidence.Set set.now) bound)) }
{
    match opened(alloc, system, set, bound)? {
        Ok(common) => judge_parts(rt, alloc, system, set, bound, &common, workers, gate),
        Err(objection) => Ok(Some(objection)),
    }
}

// What is said against what is there at the start, if anything is.
fn judge_start(system: &SharedSystem, bound: u64) -> Option<Objection>
    ensures { MatchOption result
        (IsEvidence system.now Evidence.Start bound)
        (IsObjection system.now Evidence.Start bound) }
{
    if at_start(system.items()) < bound {
        return Some(Objection::Low);
    }
    None
}

// What is said against the need of a task, if anything is.
fn judge_need(system: &SharedSystem, task: u32, bound: u64) -> Option<Objection>
    ensures { MatchOption result
        (IsEvidence system.now (Evidence.Need task) bound)
        (IsObjection system.now (Evidence.Need task) bound) }
{
    if !is_task(system, task) {
        return Some(Objection::NoTask);
    }
    if inputs(system.items(), task) + need(system, task) < bound {
        return Some(Objection::Low);
    }
    None
}

/// What is said against evidence for a bound, if anything is; if nothing is, no traversal has a peak below the bound. For each blocker
/// linear in the tasks and the readers of all items.
pub fn judge_evidence(
    alloc: Global,
    system: &SharedSystem,
    evidence: &Evidence,
    bound: u64,
) -> Result<Option<Objection>, NoMemory>
    ensures judged { IfOk result (λ found. MatchOption found
        (IsEvidence system.now evidence.now bound)
        (IsObjection system.now evidence.now bound)) }
    ensures exact { IfOk result (λ found. IsNone found ↔ IsEvidence system.now evidence.now bound) }
    ensures peaks { IfOk result (λ found. IsNone found →
        (order : List ℕ) → IsSharedTraversal system.now order → bound ≤ shared_peak_of system.now order) }
{
    evidence_law();
    system.keeps();
    match evidence {
        Evidence::Start => Ok(judge_start(system, bound)),
        Evidence::Need(task) => Ok(judge_need(system, *task, bound)),
        Evidence::Set(set) => judge_set(alloc, system, set, bound),
    }
}

/// The same, by so many workers: the blockers of a set are judged in as many chunks, each in a thread that calls the gate once, with the
/// number of its chunk from 0. What is said is the same for every number of workers and every gate. Each worker takes memory linear in the
/// tasks and the readers of all items.
pub fn judge_evidence_by<R: Threads + Sync, G: Gate>(
    rt: &R,
    alloc: Global,
    system: &SharedSystem,
    evidence: &Evidence,
    bound: u64,
    workers: u32,
    gate: &G,
) -> Result<Option<Objection>, NoMemory>
    requires workers { (1 ≤ workers) × (workers ≤ most_workers) }
    ensures judged { IfOk result (λ found. MatchOption found
        (IsEvidence system.now evidence.now bound)
        (IsObjection system.now evidence.now bound)) }
    ensures exact { IfOk result (λ found. IsNone found ↔ IsEvidence system.now evidence.now bound) }
    ensures peaks { IfOk result (λ found. IsNone found →
        (order : List ℕ) → IsSharedTraversal system.now order → bound ≤ shared_peak_of system.now order) }
{
    evidence_law();
    system.keeps();
    match evidence {
        Evidence::Start => Ok(judge_start(system, bound)),
        Evidence::Need(task) => Ok(judge_need(system, *task, bound)),
        Evidence::Set(set) => judge_set_by(rt, alloc, system, set, bound, workers, gate),
    }
}

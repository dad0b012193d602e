ghost use Rattle.std.specs.Prelude.{◌≡◌, ◌≤◌, ◌<◌, ◌+◌, ◌-◌, ◌^◌, ℕ, length, slice_index, sum, IfOk, IfErr, OnOk};
ghost use Rattle.mp_system.specs.Traversal.{IsTraversal};
ghost use Rattle.spill_plan.specs.SpillPlans.{IsLeastSpill};
ghost use Rattle.spill_plan.specs.Refusal.{IsSpillRefusal};
ghost use Rattle.spill_plan.specs.Spans.{AreItemSpans, IsSpilledAfter, most_span_total, start_sum, end_sum};
ghost use Rattle.spill_plan.specs.Spilled.{IsOverNeed};

use crate::NoMemory;
use crate::amounts::Spill;
use crate::needs::own_needs;
use crate::ranking::rank_by_end;
use crate::refusal::SpillRefusal;
use crate::span::{Span, spans_of};
use crate::spilled::Spilled;
use crate::sums::{end_sums, start_sums};
use mp_system::laws::traversal_law;
use mp_system::{System, replay};
use std::alloc::Global;

/// Refuses the first step that needs more for itself than the bound.
pub fn check_needs(needs: &[u64], bound: u64) -> Result<(), SpillRefusal>
    ensures fit { OnOk result ((k : ℕ) → k < length needs.now → slice_index needs.now k ≤ bound) }
    ensures refused { IfErr result (IsOverNeed needs.now bound) }
{
    for (step, need) in needs.iter().enumerate() {
        if *need > bound {
            return Err(SpillRefusal::WorkingSet {
                step: step as u64 + 1,
                need: *need,
                bound,
            });
        }
    }
    Ok(())
}

// The amounts together.
fn volume_of(amounts: &[u64]) -> u64
    requires { sum amounts.now ≤ most_span_total }
    ensures { result ≡ sum amounts.now }
{
    amounts.iter().sum()
}

/// The least amounts of spans, of which for each step, and the end, the sizes are known of what starts and of what ends there. Each step's own
/// need fits.
pub fn spill_spans(
    alloc: Global,
    spans: &[Span],
    joining: &[u64],
    leaving: Vec<u64>,
    needs: &[u64],
    bound: u64,
) -> Result<Spill, NoMemory>
    requires spans { AreItemSpans spans.now (length needs.now) }
    requires len { (length joining.now ≡ length needs.now + 1) × (length leaving.items ≡ length needs.now + 1) }
    requires joining { (k : ℕ) → k ≤ length needs.now → slice_index joining.now k ≡ start_sum k spans.now }
    requires leaving { (k : ℕ) → k ≤ length needs.now → slice_index leaving.items k ≡ end_sum k spans.now }
    requires fit { (k : ℕ) → k < length needs.now → slice_index needs.now k ≤ bound }
    requires small { (k : ℕ) → k < length needs.now → slice_index needs.now k ≤ 2 ^ 62 }
    ensures len { IfOk result (λ spill. length spill.amounts.items ≡ length spans.now) }
    ensures run { IfOk result (λ spill. IsSpilledAfter spans.now (length needs.now) (slice_index needs.now) bound (length needs.now)
        (slice_index spill.amounts.items)) }
    ensures volume { IfOk result (λ spill. spill.volume ≡ sum spill.amounts.items) }
{
    let ranks = rank_by_end(alloc, spans, needs.len() as u32)?;
    let mut spilled = Spilled::new(alloc, spans, &ranks, leaving)?;
    spilled.run(spans, &ranks, joining, needs, bound);
    let amounts = spilled.amounts;
    Ok(Spill {
        volume: volume_of(&amounts),
        amounts,
    })
}

/// The least that has to go to disk where a traversal runs within a bound: amounts of the items, those that are consumed last first
/// (Jacquelin et al. 2011). Near linear: a logarithmic step for each item and each step.
///
/// An order that is no traversal is refused as [`replay`] does; then a step whose inputs and need pass the bound.
pub fn spill(
    alloc: Global,
    system: &System,
    order: &[u32],
    bound: u64,
) -> Result<Spill, SpillRefusal>
    ensures traversal { OnOk result (IsTraversal system.now order.now) }
    ensures least { IfOk result (λ spill. IsLeastSpill system.now order.now bound spill.amounts.items spill.volume) }
    ensures refused { IfErr result (IsSpillRefusal system.now order.now bound) }
{
    traversal_law();
    system.keeps();
    replay(alloc, system, order)?;
    let spans = spans_of(alloc, system, order)?;
    let joining = start_sums(alloc, &spans, order.len())?;
    let leaving = end_sums(alloc, &spans, order.len())?;
    let needs = own_needs(alloc, system, order, &joining, &leaving)?;
    check_needs(&needs, bound)?;
    Ok(spill_spans(alloc, &spans, &joining, leaving, &needs, bound)?)
}

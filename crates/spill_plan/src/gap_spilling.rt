ghost use Rattle.std.specs.Prelude.{IfOk, IfErr, OnOk};
ghost use Rattle.shared_systems.specs.SharedTraversal.{IsSharedTraversal};
ghost use Rattle.spill_plan.specs.Gaps.{IsLeastGapSpill};
ghost use Rattle.spill_plan.specs.Refusal.{IsGapRefusal};

use crate::amounts::Spill;
use crate::gap_needs::own_gap_needs;
use crate::gap_span::gap_spans;
use crate::refusal::SpillRefusal;
use crate::spilling::{check_needs, spill_spans};
use crate::sums::{end_sums, start_sums};
use shared_systems::SharedSystem;
use shared_systems::laws::order_law;
use std::alloc::Global;

/// The least that has to go to disk where a traversal runs within a bound and items may have several readers, each of which finds all of the
/// item in memory: amounts of the gaps between uses, the items in turn, and for each the gap before each reader in turn, or one gap to the
/// end if no task reads it. What is used last goes first. Near linear in the tasks, the items and the readers of all items.
///
/// An order that is no traversal is refused as [`SharedSystem::peak`] does; then a step whose inputs and need pass the bound.
pub fn spill_gaps(
    alloc: Global,
    system: &SharedSystem,
    order: &[u32],
    bound: u64,
) -> Result<Spill, SpillRefusal>
    ensures traversal { OnOk result (IsSharedTraversal system.now order.now) }
    ensures least { IfOk result (λ spill. IsLeastGapSpill system.now order.now bound spill.amounts.items spill.volume) }
    ensures refused { IfErr result (IsGapRefusal system.now order.now bound) }
{
    order_law();
    system.keeps();
    system.peak(alloc, order)?;
    let spans = gap_spans(alloc, system, order)?;
    let joining = start_sums(alloc, &spans, order.len())?;
    let leaving = end_sums(alloc, &spans, order.len())?;
    let needs = own_gap_needs(alloc, system, order, &leaving)?;
    check_needs(&needs, bound)?;
    Ok(spill_spans(alloc, &spans, &joining, leaving, &needs, bound)?)
}

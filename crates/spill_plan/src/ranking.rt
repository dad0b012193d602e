ghost use Rattle.std.specs.Prelude.{IfOk};
ghost use Rattle.spill_plan.specs.Spans.{AreItemSpans};
ghost use Rattle.spill_plan.specs.Spilled.{IsEndRanking};

use crate::NoMemory;
use crate::span::Span;
use row_table::RowTable;
use row_table::laws::numbers_law;
use std::alloc::Global;

/// The places of the spans, those that end last first. Linear.
pub fn rank_by_end(alloc: Global, spans: &[Span], steps: u32) -> Result<Vec<u32>, NoMemory>
    requires { AreItemSpans spans.now steps }
    ensures { IfOk result (λ ranks. IsEndRanking spans.now ranks.items) }
{
    numbers_law();
    let ends: Vec<u32> = spans.iter().map(|span| span.end).collect(alloc)?;
    let rows = RowTable::group(alloc, &ends, steps + 1, 0)?;
    let mut ranks: Vec<u32> = Vec::with_capacity(alloc, spans.len())?;
    for end in (0..steps + 1).rev() {
        ranks.extend_from_slice(rows.row(end))?;
    }
    Ok(ranks)
}

//! Where the term that ends at a position begins, and how many tasks there are up to a position.

ghost use Rattle.std.specs.Prelude.{◌≡◌, ◌+◌, ◌≤◌, IfOk, length};
ghost use Rattle.sp_terms.specs.Values.{IsTerms};
ghost use Rattle.term_orders.specs.Steps.{AreStarts, AreCounts};

use crate::NoMemory;
use sp_terms::{Position, TermList, tasks_of_position, values};
use std::alloc::Global;

/// For each number of positions how many stand before the term that the last of them ends.
pub fn starts_of(alloc: Global, terms: &TermList) -> Result<Vec<u32>, NoMemory>
    ensures len { IfOk result (λ starts. length starts.items ≡ length terms.now + 1) }
    ensures starts { IfOk result (λ starts. AreStarts terms.now starts.items) }
{
    terms.keeps();
    let values = values(alloc, terms)?;
    let mut starts = Vec::with_capacity(alloc, values.len() + 1)?;
    starts.push(0)?;
    for i in 0..values.len() {
        starts.push(i as u32 + 1 - values[i].width)?;
    }
    Ok(starts)
}

/// For each number of positions how many of them are tasks.
pub fn counts_of(alloc: Global, positions: &[Position]) -> Result<Vec<u32>, NoMemory>
    requires { IsTerms positions.now }
    ensures len { IfOk result (λ counts. length counts.items ≡ length positions.now + 1) }
    ensures counts { IfOk result (λ counts. AreCounts positions.now counts.items) }
{
    let mut counts = Vec::with_capacity(alloc, positions.len() + 1)?;
    let mut count: u64 = 0;
    counts.push(0)?;
    for position in positions {
        count += tasks_of_position(*position);
        counts.push(count as u32)?;
    }
    Ok(counts)
}

ghost use Rattle.std.specs.Prelude.{◌≡◌, ◌≤◌, ◌+◌, ℕ, slice_index, IfOk, vec_len};
ghost use Rattle.spill_plan.specs.Spans.{AreItemSpans, start_sum, end_sum};

use crate::NoMemory;
use crate::span::Span;
use std::alloc::Global;

/// For each step, and the end, the sizes of what starts there.
pub fn start_sums(alloc: Global, spans: &[Span], steps: usize) -> Result<Vec<u64>, NoMemory>
    requires { AreItemSpans spans.now steps }
    ensures len { IfOk result (λ sums. vec_len sums ≡ steps + 1) }
    ensures sums { IfOk result (λ sums. (k : ℕ) → k ≤ steps → slice_index sums.items k ≡ start_sum k spans.now) }
{
    let mut sums: Vec<u64> = vec![in alloc; 0; steps + 1]?;
    for span in spans {
        sums[span.start as usize] += span.size;
    }
    Ok(sums)
}

/// For each step, and the end, the sizes of what ends there.
pub fn end_sums(alloc: Global, spans: &[Span], steps: usize) -> Result<Vec<u64>, NoMemory>
    requires { AreItemSpans spans.now steps }
    ensures len { IfOk result (λ sums. vec_len sums ≡ steps + 1) }
    ensures sums { IfOk result (λ sums. (k : ℕ) → k ≤ steps → slice_index sums.items k ≡ end_sum k spans.now) }
{
    let mut sums: Vec<u64> = vec![in alloc; 0; steps + 1]?;
    for span in spans {
        sums[span.end as usize] += span.size;
    }
    Ok(sums)
}

//! How many arcs lead into each task, and out of it.

ghost use Rattle.std.specs.Prelude.{◌≡◌, ◌<◌, ◌≤◌, ◌+◌, ◌^◌, ◌==◌, ℕ, All, IfOk, length, map, count_by, slice_index};
ghost use Rattle.graphs.specs.Queue.{to_of, from_of};

use crate::NoMemory;
use crate::arc::Arc;
use std::alloc::Global;

/// The numbers of the tasks that the arcs lead into, 0 for none.
pub fn heads_of(alloc: Global, arcs: &[Arc]) -> Result<Vec<u32>, NoMemory>
    ensures { IfOk result (λ heads. heads.items ≡ map to_of arcs.now) }
{
    arcs.iter().map(|arc| arc.to).collect(alloc)
}

/// The numbers of the tasks that the arcs lead out of, 0 for none.
pub fn tails_of(alloc: Global, arcs: &[Arc]) -> Result<Vec<u32>, NoMemory>
    ensures { IfOk result (λ tails. tails.items ≡ map from_of arcs.now) }
{
    arcs.iter().map(|arc| arc.from).collect(alloc)
}

/// How often each number up to the count stands among the ends.
pub fn count_ends(alloc: Global, count: u32, ends: &[u32]) -> Result<Vec<u32>, NoMemory>
    requires within { All (λ v. v ≤ count) ends.now }
    requires few { length ends.now < 2 ^ 32 }
    ensures len { IfOk result (λ counts. length counts.items ≡ count + 1) }
    ensures counts { IfOk result (λ counts. (v : ℕ) → slice_index counts.items v ≡ count_by (λ e. e == v) ends.now) }
{
    let mut counts: Vec<u32> = vec![in alloc; 0; count as usize + 1]?;
    for end in ends {
        counts[*end as usize] += 1;
    }
    Ok(counts)
}

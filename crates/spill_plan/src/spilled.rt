ghost use Rattle.std.specs.Prelude.{◌≡◌, ◌≤◌, ◌<◌, ◌+◌, ◌^◌, ℕ, List, length, slice_index, IfOk};
ghost use Rattle.spill_plan.specs.Spans.{AreItemSpans, IsSpilledAfter, kept_at, start_sum, end_sum};
ghost use Rattle.spill_plan.specs.Spilled.{IsEndRanking, IsSpilledState, IsRaising, AreStartsByRank, AreZero};

use crate::NoMemory;
use crate::span::Span;
use min_tree::MinTree;
use std::alloc::Global;

/// What is spilled of each item, while a greedy goes through the steps.
#[derive(Drop)]
pub struct Spilled {
    pub amounts: Vec<u64>,
    /// By rank the start of the item, or the greatest number where nothing of it is left in memory.
    pub starts: MinTree,
    /// For each step, and the end, what is left in memory of the items that end there.
    pub leaving: Vec<u64>,
}

// The starts of all items that have a size, by rank.
fn start_tree(alloc: Global, spans: &[Span], ranks: &[u32]) -> Result<MinTree, NoMemory>
    requires few { length spans.now ≤ 2 ^ 31 }
    requires ranking { IsEndRanking spans.now ranks.now }
    ensures { IfOk result (λ starts. (amounts : List ℕ) → AreZero amounts → AreStartsByRank spans.now ranks.now amounts starts) }
{
    let mut starts = MinTree::new(alloc, spans.len())?;
    for (rank, i) in ranks.iter().enumerate() {
        let span = spans[*i as usize];
        if span.size > 0 {
            starts.put(rank, u64::from(span.start));
        }
    }
    Ok(starts)
}

impl Spilled {
    /// Nothing is spilled. The sizes of what ends at each step are known.
    pub fn new(
        alloc: Global,
        spans: &[Span],
        ranks: &[u32],
        leaving: Vec<u64>,
    ) -> Result<Spilled, NoMemory>
        requires few { length spans.now ≤ 2 ^ 31 }
        requires ranking { IsEndRanking spans.now ranks.now }
        requires leaving { (k : ℕ) → k < length leaving.items → slice_index leaving.items k ≡ end_sum k spans.now }
        ensures state { IfOk result (IsSpilledState spans.now ranks.now) }
        ensures zero { IfOk result (λ spilled. AreZero spilled.amounts.items) }
        ensures len { IfOk result (λ spilled. length spilled.leaving.items ≡ length leaving.items) }
    {
        let amounts = vec![in alloc; 0; spans.len()]?;
        let starts = start_tree(alloc, spans, ranks)?;
        Ok(Spilled {
            amounts,
            starts,
            leaving,
        })
    }

    // Spills so much more of what is held across a step, first of what ends last.
    fn raise(&mut self, spans: &[Span], ranks: &[u32], step: u32, over: u64)
        requires spans { (steps : ℕ) × AreItemSpans spans.now steps × (step < steps) × (length self.old.leaving.items ≡ steps + 1) }
        requires ranking { IsEndRanking spans.now ranks.now }
        requires state { IsSpilledState spans.now ranks.now self.old }
        requires over { over ≤ kept_at step (slice_index self.old.amounts.items) spans.now }
        ensures raised { (turn : ℕ) ×
            IsRaising spans.now step (slice_index self.old.amounts.items) (slice_index self.new.amounts.items) over turn }
        ensures none { over ≡ 0 → self.new.amounts.items ≡ self.old.amounts.items }
        ensures state { IsSpilledState spans.now ranks.now self.new }
        ensures len { length self.new.leaving.items ≡ length self.old.leaving.items }
    {
        let mut missing = over;
        while missing > 0 {
            let Some(rank) = self.starts.first_at_most(u64::from(step)) else {
                return;
            };
            let i = ranks[rank] as usize;
            let span = spans[i];
            let room = span.size - self.amounts[i];
            let part = room.min(missing);
            self.amounts[i] += part;
            self.leaving[span.end as usize] -= part;
            missing -= part;
            if part == room {
                self.starts.put(rank, u64::MAX);
            }
        }
    }

    /// Goes through all steps, each of which fits by itself. At each step what passes the bound is spilled.
    pub fn run(&mut self, spans: &[Span], ranks: &[u32], joining: &[u64], needs: &[u64], bound: u64)
        requires spans { AreItemSpans spans.now (length needs.now) }
        requires ranking { IsEndRanking spans.now ranks.now }
        requires state { IsSpilledState spans.now ranks.now self.old × AreZero self.old.amounts.items }
        requires len { (length self.old.leaving.items ≡ length needs.now + 1) × (length joining.now ≡ length needs.now + 1) }
        requires joining { (k : ℕ) → k ≤ length needs.now → slice_index joining.now k ≡ start_sum k spans.now }
        requires fit { (k : ℕ) → k < length needs.now → slice_index needs.now k ≤ bound }
        requires small { (k : ℕ) → k < length needs.now → slice_index needs.now k ≤ 2 ^ 62 }
        ensures len { length self.new.amounts.items ≡ length spans.now }
        ensures run { IsSpilledAfter spans.now (length needs.now) (slice_index needs.now) bound (length needs.now)
            (slice_index self.new.amounts.items) }
    {
        let mut held: u64 = 0;
        for (step, need) in needs.iter().enumerate() {
            held = held + joining[step] - self.leaving[step];
            let over = (*need + held).saturating_sub(bound);
            self.raise(spans, ranks, step as u32, over);
            held -= over;
        }
    }
}

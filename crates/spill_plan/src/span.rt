ghost use Rattle.std.specs.Prelude.{◌≡◌, ◌+◌, ◌-◌, length, map, slice_index, IfOk};
ghost use Rattle.std.specs.Option.{ForSome, option_map_or};
ghost use Rattle.mp_system.specs.Traversal.{IsTraversal};
ghost use Rattle.spill_plan.specs.Spans.{AreItemSpans, IsInTable, span_of};

use crate::NoMemory;
use crate::steps::steps_by_task;
use mp_system::System;
use mp_system::laws::traversal_law;
use std::alloc::Global;

/// What is held across the steps from `start` on that come before `end`, and what the task of step `end` reads, if there is one.
#[derive(Clone, Copy, Debug, PartialEq, Eq)]
pub struct Span {
    pub size: u64,
    pub start: u32,
    pub end: u32,
}

/// The step after that of the producer, or the first.
pub fn start_of_item(steps: &[u32], producer: Option<u32>) -> u32
    requires { ForSome producer (IsInTable steps.now) }
    ensures { result ≡ option_map_or (λ task. slice_index steps.now (task - 1) + 1) producer 0 }
{
    match producer {
        None => 0,
        Some(task) => steps[task as usize - 1] + 1,
    }
}

// The step of the consumer, or the end.
fn end_of_item(steps: &[u32], consumer: Option<u32>, end: u32) -> u32
    requires { ForSome consumer (IsInTable steps.now) }
    ensures { result ≡ option_map_or (λ task. slice_index steps.now (task - 1)) consumer end }
{
    match consumer {
        None => end,
        Some(task) => steps[task as usize - 1],
    }
}

/// The items of a system as spans along a traversal.
pub fn spans_of(alloc: Global, system: &System, order: &[u32]) -> Result<Vec<Span>, NoMemory>
    requires { IsTraversal system.now order.now }
    ensures spans { IfOk result (λ spans. spans.items ≡ map (span_of order.now) system.now.items) }
    ensures within { IfOk result (λ spans. AreItemSpans spans.items (length order.now)) }
{
    traversal_law();
    system.keeps();
    let steps = steps_by_task(alloc, system.tasks().len(), order)?;
    let items = system.items();
    let mut spans = Vec::with_capacity(alloc, items.len())?;
    for item in items {
        spans.push(Span {
            size: item.size,
            start: start_of_item(&steps, item.from),
            end: end_of_item(&steps, item.to, order.len() as u32),
        })?;
    }
    Ok(spans)
}

ghost use Rattle.std.specs.Prelude.{◌≤◌, IfOk, length};
ghost use Rattle.limits.specs.Limits.{most_tasks};
ghost use Rattle.spill_plan.specs.Spans.{IsEachOnce, IsStepTable};

use crate::NoMemory;
use std::alloc::Global;

/// For each of so many tasks the step of an order at which it runs, counted from 0.
pub fn steps_by_task(alloc: Global, count: usize, order: &[u32]) -> Result<Vec<u32>, NoMemory>
    requires few { length order.now ≤ most_tasks }
    requires each { IsEachOnce count order.now }
    ensures { IfOk result (λ steps. IsStepTable count order.now steps.items) }
{
    let mut steps: Vec<u32> = vec![in alloc; 0; count]?;
    for step in 0..order.len() {
        steps[order[step] as usize - 1] = step as u32;
    }
    Ok(steps)
}

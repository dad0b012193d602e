ghost use Rattle.std.specs.Prelude.{◌≡◌, ◌≤◌, nat_le, IfOk};
ghost use Rattle.std.specs.List.{filter};
ghost use Rattle.mp_system.specs.Memory.{peak_of};
ghost use Rattle.mp_system.specs.Traversal.{IsTraversal};
ghost use Rattle.shared_systems.specs.SharedMemory.{shared_peak_of};
ghost use Rattle.shared_systems.specs.SharedTraversal.{IsSharedTraversal};
ghost use Rattle.shared_systems.specs.Collected as specs;

use crate::NoMemory;
use crate::laws::dropping_law;
use crate::system::SharedSystem;
use std::alloc::Global;

// The numbers of an order that are at most so great.
fn kept_of(alloc: Global, order: &[u32], last: usize) -> Result<Vec<u32>, NoMemory>
    ensures { IfOk result (λ kept. kept.items ≡ filter (λ v. nat_le v last) order.now) }
{
    order
        .iter()
        .copied()
        .filter(|task| *task as usize <= last)
        .collect(alloc)
}

impl SharedSystem {
    /// An order of the collected system without the collectors. Of a traversal it is a traversal, with a peak at most as high. Linear.
    pub fn dropped(&self, alloc: Global, order: &[u32]) -> Result<Vec<u32>, NoMemory>
        ensures value { IfOk result (λ kept. kept.items ≡ specs.dropped self.now order.now) }
        ensures traversal { IfOk result (λ kept.
            IsTraversal (specs.collected self.now) order.now → IsSharedTraversal self.now kept.items) }
        ensures peak { IfOk result (λ kept.
            IsTraversal (specs.collected self.now) order.now →
            shared_peak_of self.now kept.items ≤ peak_of (specs.collected self.now) order.now) }
    {
        dropping_law();
        let kept = kept_of(alloc, order, self.tasks().len())?;
        Ok(kept)
    }
}

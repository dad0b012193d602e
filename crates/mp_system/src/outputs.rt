ghost use Rattle.std.specs.Prelude.{IfOk};
ghost use Rattle.mp_system.specs.ReplayTables.{AreOutputs};

use crate::NoMemory;
use crate::system::System;
use std::alloc::Global;

/// For each task the sizes of what it produces, together.
pub fn output_sums(alloc: Global, system: &System) -> Result<Vec<u64>, NoMemory>
    ensures { IfOk result (λ sums. AreOutputs system.now sums.items) }
{
    let mut sums: Vec<u64> = vec![in alloc; 0; system.tasks().len()]?;
    for item in system.items() {
        if let Some(producer) = item.from {
            sums[producer as usize - 1] += item.size;
        }
    }
    Ok(sums)
}

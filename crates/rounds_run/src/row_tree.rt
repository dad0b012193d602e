//! The making of row lists as a system of tasks.

ghost use Rattle.std.specs.Prelude.{◌≡◌, ◌≤◌, map, length, IfOk};
ghost use Rattle.limits.specs.Limits.{most_order};
ghost use Rattle.rounds_run.specs.RowSystem.{row_node, row_system, row_order};

use crate::NoMemory;
use assembly_tree::{Assembly, Super};
use mp_system::System;
use std::alloc::Global;
use trees::{Node, Tree, system_of_tree};

fn row_nodes(alloc: Global, supers: &[Super]) -> Result<Vec<Node>, NoMemory>
    ensures { IfOk result (λ nodes. nodes.items ≡ map row_node supers.now) }
{
    supers
        .iter()
        .map(|supernode| Node {
            parent: supernode.parent,
            out: u64::from(supernode.rest),
            extra: u64::from(supernode.columns),
            share: 0,
            time: 1,
        })
        .collect(alloc)
}

/// The row system of the supernodes.
pub fn row_system(alloc: Global, assembly: &Assembly) -> Result<System, NoMemory>
    ensures { IfOk result (λ system. system ≡ row_system assembly.now.supers) }
{
    let nodes = row_nodes(alloc, assembly.supers())?;
    system_of_tree(alloc, &Tree::new(nodes))
}

/// The numbers of the supernodes, in rising order.
pub fn row_order(alloc: Global, supers: &[Super]) -> Result<Vec<u32>, NoMemory>
    requires { length supers.now ≤ most_order }
    ensures { IfOk result (λ order. order.items ≡ row_order supers.now) }
{
    let mut order = Vec::with_capacity(alloc, supers.len())?;
    for i in 0..supers.len() {
        order.push(i as u32 + 1)?;
    }
    Ok(order)
}

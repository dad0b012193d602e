ghost use Rattle.std.specs.Prelude.{◌≡◌, ◌+◌, ℕ, length, slice_index, IfOk};
ghost use Rattle.trees.specs.Tree.{IsTree};
ghost use Rattle.postorder_best.specs.BestPostorder.{out_at, need_at};

use crate::NoMemory;
use std::alloc::Global;
use trees::Node;

/// What each node leaves; place 0, above the roots, has 0.
pub fn outs_table(alloc: Global, nodes: &[Node]) -> Result<Vec<u64>, NoMemory>
    ensures len { IfOk result (λ outs. length outs.items ≡ length nodes.now + 1) }
    ensures values { IfOk result (λ outs. (x : ℕ) → slice_index outs.items x ≡ out_at nodes.now x) }
{
    let mut outs: Vec<u64> = Vec::with_capacity(alloc, nodes.len() + 1)?;
    outs.push(0)?;
    for node in nodes {
        outs.push(node.out)?;
    }
    Ok(outs)
}

/// What each node needs while it runs, beside the blocks of its children; place 0, above the roots, has 0.
pub fn needs_table(alloc: Global, nodes: &[Node]) -> Result<Vec<u64>, NoMemory>
    requires { IsTree nodes.now }
    ensures len { IfOk result (λ needs. length needs.items ≡ length nodes.now + 1) }
    ensures values { IfOk result (λ needs. (x : ℕ) → slice_index needs.items x ≡ need_at nodes.now x) }
{
    let mut needs: Vec<u64> = Vec::with_capacity(alloc, nodes.len() + 1)?;
    needs.push(0)?;
    for node in nodes {
        needs.push(node.extra + node.out - node.share)?;
    }
    Ok(needs)
}

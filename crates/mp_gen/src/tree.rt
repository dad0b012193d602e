//! Random trees.

ghost use Rattle.std.specs.Prelude.{◌≡◌, ◌≤◌, IfOk};
ghost use Rattle.limits.specs.Limits.{most_tasks};
ghost use Rattle.mp_gen.specs.RandomTree.{draw_parent, draw_node, tree_of};

use crate::NoMemory;
use crate::dice::{dice_of, draw};
use rand_pcg::Pcg32;
use std::alloc::Global;
use trees::{Node, Tree};

// The parent of node i of n.
#[tactic(auto, unfolding(crate::specs::RandomTree::draw_parent))]
fn draw_parent(dice: &mut Pcg32, i: u32, n: u32) -> u32
    requires within { i ≤ n }
    requires few { n ≤ most_tasks }
    ensures { (result, dice.new) ≡ draw_parent n i dice.old }
{
    if i < n {
        i + 1 + draw(dice, (n - i).min(8))
    } else {
        0
    }
}

// Node i of n.
#[tactic(auto, unfolding(crate::specs::RandomTree::draw_node))]
fn draw_node(dice: &mut Pcg32, i: u32, n: u32) -> Node
    requires within { i ≤ n }
    requires few { n ≤ most_tasks }
    ensures { (result, dice.new) ≡ draw_node n i dice.old }
{
    let parent = draw_parent(dice, i, n);
    let out = 1 + u64::from(draw(dice, 1000));
    let extra = u64::from(draw(dice, 1000));
    let time = 1 + u64::from(draw(dice, 16));
    Node {
        parent,
        out,
        extra,
        share: 0,
        time,
    }
}

/// The random tree of a seed, of n nodes: each but the last has its parent among the next eight. Outs are 1 to 1000, extras 0 to
/// 999, times 1 to 16, and no node has a share. Linear.
pub fn gen_tree(alloc: Global, seed: u64, n: u32) -> Result<Tree, NoMemory>
    requires some { 1 ≤ n }
    requires few { n ≤ most_tasks }
    ensures { IfOk result (λ tree. tree ≡ tree_of seed n) }
{
    let mut dice = dice_of(seed);
    let mut nodes: Vec<Node> = Vec::new(alloc);
    for i in 0..n {
        nodes.push(draw_node(&mut dice, i + 1, n))?;
    }
    Ok(Tree::new(nodes))
}

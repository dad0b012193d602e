//! Whether nodes that a caller gives are a tree.

ghost use Rattle.std.specs.Prelude.{◌≡◌, ◌≤◌, ◌↔◌, ℕ, List, length, IfOk, IfErr, IsTrue, MatchResult};
ghost use Rattle.std.specs.List.{sum_by};
ghost use Rattle.limits.specs.Limits.{most_tasks};
ghost use Rattle.trees.specs.declared.node.Node.{Node};
ghost use Rattle.trees.specs.declared.judged.NodeTest.TheVariants as tests;
ghost use Rattle.trees.specs.Tree.{IsTree, node_at, node_size};
ghost use Rattle.trees.specs.Judged.{AllPass, AreCounted, IsNodesRefusal, PassAll, PassBefore, NodePasses};

use crate::NoMemory;
use crate::faults::{TreeFault, first_fault};
use crate::node::Node;
use crate::tree::Tree;
use limits::{MOST_SIZE, MOST_TASKS, MOST_TIME, MOST_TOTAL};
use std::alloc::Global;

/// A test that each node of a tree passes by itself.
#[derive(Clone, Copy, Debug, PartialEq, Eq)]
pub enum NodeTest {
    /// The parent is 0 or the number of a node.
    Parent,
    /// The time is not 0.
    Time,
    /// The out and the extra are at most 2^40.
    Size,
    /// The time is at most 2^40.
    LongTime,
}

/// Why nodes are no tree.
#[derive(Clone, Copy, Debug, PartialEq, Eq)]
pub enum NodesRefusal {
    /// There is no node.
    NoNode,
    /// There are more than 10^6 nodes.
    ManyNodes,
    /// The lowest node that fails a test, of which it is the first.
    Node { test: NodeTest, node: u32 },
    /// All outs and extras together are greater than 2^60.
    Total,
    /// The parents of this node, the lowest such, lead to no root.
    Cycle(u32),
    /// The share of this node, the lowest such, does not fit.
    Share(u32),
    /// Memory ran out, which says nothing of the nodes.
    NoMemory,
}

impl From<NoMemory> for NodesRefusal {
    ghost use Rattle.trees.specs.declared.judged.NodesRefusal.TheVariants.{NoMemory as OutOfMemory};

    ghost from_gives = { λ _ e. e ≡ OutOfMemory };

    fn from(_no_memory: NoMemory) -> NodesRefusal {
        NodesRefusal::NoMemory
    }
}

// Whether a node, one of so many, passes a test.
fn passes(test: NodeTest, node: Node, count: usize) -> bool
    ensures { (nodes : List Node) (v : ℕ) → length nodes ≡ count → node_at nodes v ≡ node → (IsTrue result ↔ NodePasses nodes test v) }
{
    match test {
        NodeTest::Parent => node.parent as usize <= count,
        NodeTest::Time => node.time != 0,
        NodeTest::Size => node.out <= MOST_SIZE && node.extra <= MOST_SIZE,
        NodeTest::LongTime => node.time <= MOST_TIME,
    }
}

// Whether all nodes pass a test; else the lowest that fails it.
fn judge_each(test: NodeTest, nodes: &[Node]) -> Result<(), NodesRefusal>
    requires counted { AreCounted nodes.now }
    requires before { PassBefore nodes.now test }
    ensures { MatchResult result (λ _. AllPass nodes.now test) (IsNodesRefusal nodes.now) }
{
    for i in 0..nodes.len() {
        if !passes(test, nodes[i], nodes.len()) {
            let node = i as u32 + 1;
            return Err(NodesRefusal::Node { test, node });
        }
    }
    Ok(())
}

// Whether there are as many nodes as there may be, and each passes all tests.
fn judge_nodes(nodes: &[Node]) -> Result<(), NodesRefusal>
    ensures { MatchResult result (λ _. PassAll nodes.now) (IsNodesRefusal nodes.now) }
{
    if nodes.is_empty() {
        return Err(NodesRefusal::NoNode);
    }
    if nodes.len() as u64 > MOST_TASKS {
        return Err(NodesRefusal::ManyNodes);
    }
    judge_each(NodeTest::Parent, nodes)?;
    judge_each(NodeTest::Time, nodes)?;
    judge_each(NodeTest::Size, nodes)?;
    judge_each(NodeTest::LongTime, nodes)
}

// All outs and extras together.
fn total_size(nodes: &[Node]) -> u64
    requires few { length nodes.now ≤ most_tasks }
    requires sizes { AllPass nodes.now tests.Size }
    ensures { result ≡ sum_by node_size nodes.now }
{
    let mut total: u64 = 0;
    for i in 0..nodes.len() {
        total += nodes[i].out + nodes[i].extra;
    }
    total
}

// Whether nodes are a tree.
fn judge(alloc: Global, nodes: &[Node]) -> Result<(), NodesRefusal>
    ensures { MatchResult result (λ _. IsTree nodes.now) (IsNodesRefusal nodes.now) }
{
    judge_nodes(nodes)?;
    if total_size(nodes) > MOST_TOTAL {
        return Err(NodesRefusal::Total);
    }
    match first_fault(alloc, nodes)? {
        Some(TreeFault::Cycle(node)) => Err(NodesRefusal::Cycle(node)),
        Some(TreeFault::Share(node)) => Err(NodesRefusal::Share(node)),
        None => Ok(()),
    }
}

/// The tree of these nodes, numbered from 1, or why they are none: the first test that fails, with the lowest node that fails it.
/// Near linear.
pub fn tree_of_nodes(alloc: Global, nodes: &[Node]) -> Result<Tree, NodesRefusal>
    ensures tree { IfOk result (λ tree. tree ≡ nodes.now) }
    ensures within { IfOk result (λ _. IsTree nodes.now) }
    ensures refused { IfErr result (IsNodesRefusal nodes.now) }
{
    judge(alloc, nodes)?;
    let copy = Vec::from_slice(alloc, nodes)?;
    Ok(Tree::new(copy))
}

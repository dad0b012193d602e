ghost use Rattle.std.specs.Prelude.{◌≡◌, List};
ghost use Rattle.trees.specs.declared.node.Node.{Node};
ghost use Rattle.trees.specs.Tree.{IsTree};

use crate::node::Node;
use std::marker::Model;

/// A tree within the limits: 1 to 10^6 nodes whose parents lead to a root, each size and time at most 2^40, all outs and extras
/// together at most 2^60, and each share at most the blocks of the children and at most the node's extra and out.
#[derive(Drop)]
pub struct Tree {
    nodes: Vec<Node>,
}

impl Model for Tree {
    ghost Value = { List Node };

    ghost view = { λ t. t.nodes.items };

    ghost invariant = { λ t. IsTree t.nodes.items };
}

impl Tree {
    /// A tree of these nodes, numbered from 1.
    pub fn new(nodes: Vec<Node>) -> Tree
        requires { IsTree nodes.items }
        ensures { result ≡ nodes.items }
    {
        Tree { nodes }
    }

    /// What every value of this type keeps; a proof that needs it calls it. It does nothing.
    pub fn keeps(&self)
        ensures { IsTree self.now }
    {
        let _ = &self.nodes;
    }

    /// The nodes, of which the first has the number 1.
    pub fn nodes(&self) -> &[Node]
        ensures value { result.now ≡ self.now }
        ensures tree { IsTree self.now }
    {
        &self.nodes
    }
}

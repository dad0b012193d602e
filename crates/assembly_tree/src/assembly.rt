ghost use Rattle.std.specs.Prelude.{◌≡◌, ◌≤◌, length};
ghost use Rattle.assembly_tree.specs.Assembly.{AssemblyTree, IsAssembly, super_of};

use std::marker::Model;

/// A supernode: columns of the factor that are kept and eliminated together, in one front.
#[derive(Clone, Copy, Debug, PartialEq, Eq)]
pub struct Super {
    /// How many columns it has, at least 1.
    pub columns: u32,
    /// How many rows its front has beside those of its columns: the order of its contribution block.
    pub rest: u32,
    /// The number of its parent, from 1; 0 for none.
    pub parent: u32,
}

/// An assembly tree: its supernodes, each numbered before its parent, and the supernode of each column; there are from 1 to the limit `order`.
#[derive(Drop)]
pub struct Assembly {
    supers: Vec<Super>,
    // by column, of which the first stands at 0
    pub(crate) nodes: Vec<u32>,
}

impl Model for Assembly {
    ghost Value = { AssemblyTree };

    ghost view = { λ a. record { supers = a.supers.items; nodes = a.nodes.items } };

    ghost invariant = { λ a. IsAssembly (record { supers = a.supers.items; nodes = a.nodes.items }) };
}

// The supernode of a column, from 1; 0 for column 0.
pub(crate) fn super_in(nodes: &[u32], column: u32) -> u32
    requires { column ≤ length nodes.now }
    ensures { result ≡ super_of nodes.now column }
{
    if column == 0 {
        0
    } else {
        nodes[column as usize - 1]
    }
}

impl Assembly {
    // The one place where an assembly tree is made.
    pub(crate) fn of(supers: Vec<Super>, nodes: Vec<u32>) -> Assembly
        requires { IsAssembly (record { supers = supers.items; nodes = nodes.items }) }
        ensures { result ≡ record { supers = supers.items; nodes = nodes.items } }
    {
        Assembly { supers, nodes }
    }

    /// How many columns there are, from 1 to the limit `order`.
    pub fn columns(&self) -> u32
        ensures { result ≡ length self.now.nodes }
    {
        self.nodes.len() as u32
    }

    /// The supernodes, of which the first has the number 1.
    pub fn supers(&self) -> &[Super]
        ensures value { result.now ≡ self.now.supers }
        ensures assembly { IsAssembly self.now }
    {
        &self.supers
    }

    /// The number of the supernode that has a column, from 1; 0 for column 0.
    pub fn super_of(&self, column: u32) -> u32
        requires { column ≤ length self.now.nodes }
        ensures value { result ≡ super_of self.now.nodes column }
        ensures within { result ≤ length self.now.supers }
    {
        super_in(&self.nodes, column)
    }
}

ghost use Rattle.std.specs.Prelude.{◌≡◌, ◌≤◌, ℕ, List, length};
ghost use Rattle.elim_tree.specs.Trees.{IsForest, parent_at};
ghost use Rattle.elim_tree.specs.ParentTables.{parents_in, IsParentTable};

use std::marker::Model;

/// The parents of 1 to 10^6 columns in a forest: that of each is 0, for none, or a greater column. Contracts see the list of the
/// parents.
#[derive(Drop)]
pub struct Parents {
    // by column; at 0 stands 0
    pub(crate) table: Vec<u32>,
}

impl Model for Parents {
    ghost Value = { List ℕ };

    ghost view = { λ p. parents_in p.table.items };

    ghost invariant = { λ p. IsParentTable p.table.items };
}

impl Parents {
    /// What every value of this type keeps; a proof that needs it calls it. It does nothing.
    pub fn keeps(&self)
        // each parent is a greater column, or 0
        ensures { IsForest self.now }
    {
        let _ = &self.table;
    }

    /// How many columns there are, 1 to 10^6.
    pub fn len(&self) -> u32
        ensures value { result ≡ length self.now }
        // each parent is a greater column, or 0
        ensures forest { IsForest self.now }
    {
        (self.table.len() - 1) as u32
    }

    /// The parent of the `j`-th column, from 1, or 0 for none; 0 for 0.
    pub fn at(&self, j: u32) -> u32
        requires { j ≤ length self.now }
        ensures value { result ≡ parent_at self.now j }
        ensures column { result ≤ length self.now }
    {
        self.table[j as usize]
    }
}

//! Tree files, and what their trees are as systems and as terms.

mod files;
mod nodes;
mod terms;

use std::alloc::Global;
use std::test::Fail;
use tree_files::read_tree;
use trees::Tree;

// Two like branches.
const FIVE: &str = "tree 1\nnodes 5\n2 1 9 1\n5 5 0 1\n4 1 9 1\n5 5 0 1\n0 0 0 1\nend\n";

// A block that the parent takes over.
const SHARED: &str = "tree 2\nnodes 2\n2 4 0 0 1\n0 3 2 4 1\nend\n";

fn read(alloc: Global, text: &str) -> Result<Tree, Fail> {
    Ok(read_tree(alloc, text.as_bytes())?)
}

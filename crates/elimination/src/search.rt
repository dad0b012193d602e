//! The tables of the search.

ghost use Rattle.std.specs.Prelude.{◌≡◌, ℕ, ◌+◌, length, IfOk};
ghost use Rattle.patterns.specs.Pattern.{neighbours_of};
ghost use Rattle.min_tree.specs.Least.{greatest};
ghost use Rattle.elimination.specs.Elimination.{IsVertex};
ghost use Rattle.elimination.specs.Quotients.{at};
ghost use Rattle.elimination.specs.Tables.{tables, AllHaveLength, IsUntouched};

use crate::NoMemory;
use crate::hoods::Hood;
use crate::parts::empty_lists;
use min_tree::MinTree;
use patterns::Pattern;
use std::alloc::Global;

/// What is left of a pattern: eliminated vertices that hang together are kept as parts, and each part has a list of the vertices that are
/// left and touch it, its rim (a quotient graph). Each table has a place for every number up to the order; 0 is no vertex.
#[derive(Drop)]
pub struct Search {
    /// The turn at which a vertex was eliminated, counted from 1; 0 while it is left.
    pub turns: Vec<u32>,
    /// From an eliminated vertex to a later one of its part, and from the last to itself.
    pub links: Vec<u32>,
    /// At the last vertex of a part, its rim, without the twins for which others stand.
    pub rims: Vec<Vec<u32>>,
    /// The twins for which a vertex stands.
    pub groups: Vec<Vec<u32>>,
    /// How many these are, and the vertex itself.
    pub sizes: Vec<u32>,
    /// Marks. Between looks just those are marked for which others stand, so that they are passed over.
    pub seen: Vec<bool>,
    /// Lower bounds of the degrees of the vertices that are left and stand for themselves. All others have the greatest number.
    pub bounds: MinTree,
    /// The neighbours of the vertex at which the search looked last.
    pub hood: Hood,
}

// The first bound of each vertex: how many neighbours it has.
fn first_bounds(alloc: Global, pattern: &Pattern) -> Result<MinTree, NoMemory>
    ensures len { IfOk result (λ bounds. length bounds ≡ length pattern.now + 1) }
    ensures exact { IfOk result (λ bounds. (w : ℕ) → IsVertex (length pattern.now) w
        → at bounds w ≡ length (neighbours_of pattern.now w)) }
    ensures unused { IfOk result (λ bounds. at bounds 0 ≡ greatest) }
{
    let n = pattern.rows();
    let mut bounds = MinTree::new(alloc, n as usize + 1)?;
    for w in 1..=n {
        bounds.put(w as usize, pattern.neighbours(w).len() as u64);
    }
    Ok(bounds)
}

impl Search {
    /// All vertices are left, each stands for itself, and the bounds are the degrees.
    pub fn new(alloc: Global, pattern: &Pattern) -> Result<Search, NoMemory>
        ensures lengths { IfOk result (AllHaveLength (length pattern.now + 1)) }
        ensures fresh { IfOk result (λ search. IsUntouched pattern.now (tables search)) }
    {
        let size = pattern.rows() as usize + 1;
        let near = Vec::new(alloc);
        let touched = Vec::new(alloc);
        Ok(Search {
            turns: vec![in alloc; 0; size]?,
            links: vec![in alloc; 0; size]?,
            rims: empty_lists(alloc, size)?,
            groups: empty_lists(alloc, size)?,
            sizes: vec![in alloc; 1; size]?,
            seen: vec![in alloc; false; size]?,
            bounds: first_bounds(alloc, pattern)?,
            hood: Hood {
                near,
                touched,
                first_end: usize::MAX,
            },
        })
    }
}

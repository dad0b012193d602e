ghost use Rattle.std.specs.Prelude.{◌≡◌, length, IfOk};
ghost use Rattle.ordering.specs.Fill.{parents_of, counts_of};
ghost use Rattle.assembly_tree.specs.Supernodes.{AreSupernodes};
ghost use Rattle.symbolic.specs.FrontTree.{columns, relaxed, IsAnalysis, IsFrontTree};

use crate::NoMemory;
use crate::options::FrontOptions;
use assembly_tree::laws::counts_of_fill;
use assembly_tree::{Assembly, amalgamate, fronts, supernodes};
use column_counts::counts;
use elim_tree::laws::renumbered_pattern;
use elim_tree::{Numbered, postordered_etree};
use patterns::Pattern;
use permutations::Perm;
use std::alloc::Global;
use trees::Tree;

/// What is known of a matrix and an order of elimination before its fronts are made.
#[derive(Drop)]
pub struct Analysis {
    /// The order along the postorder of its elimination tree, and the elimination tree of this new order.
    pub numbered: Numbered,
    /// The fundamental supernodes of its columns.
    pub assembly: Assembly,
}

/// The analysis of a matrix that is eliminated in an order: its elimination tree is postordered, and cut into fundamental supernodes by the
/// counts of its columns. `NoMemory` says nothing of the matrix. Near linear in the entries. Liu 1990; Gilbert, Ng and Peyton 1994.
pub fn analyse(alloc: Global, pattern: &Pattern, perm: &Perm) -> Result<Analysis, NoMemory>
    requires { length perm.now ≡ length pattern.now }
    ensures analysis { IfOk result (λ a. IsAnalysis pattern.now perm.now a.numbered.perm a.assembly) }
    ensures len { IfOk result (λ a. length a.numbered.perm ≡ length pattern.now) }
    ensures tree { IfOk result (λ a. a.numbered.parents
        ≡ parents_of (columns pattern.now a.numbered.perm) (length a.numbered.perm)) }
    ensures supernodes { IfOk result (λ a. AreSupernodes a.numbered.parents
        (counts_of (columns pattern.now a.numbered.perm) (length a.numbered.perm)) a.assembly) }
{
    renumbered_pattern();
    counts_of_fill();
    pattern.keeps();
    let numbered = postordered_etree(alloc, pattern, perm)?;
    let counts = counts(alloc, pattern, &numbered.perm, &numbered.parents)?;
    let assembly = supernodes(alloc, &numbered.parents, &counts)?;
    Ok(Analysis { numbered, assembly })
}

/// An assembly tree whose supernodes are merged where that adds at most so many explicit zeros; without a number it stays as it is.
/// `NoMemory` says nothing of the tree. Ashcraft and Grimes 1989.
pub fn relaxed(alloc: Global, assembly: Assembly, zeros: Option<u64>) -> Result<Assembly, NoMemory>
    ensures { IfOk result (λ merged. merged ≡ relaxed zeros assembly) }
{
    match zeros {
        Some(zeros) => amalgamate(alloc, &assembly, zeros),
        None => Ok(assembly),
    }
}

/// The tree of the fronts of a matrix that is eliminated in an order: its elimination tree is postordered, cut into fundamental supernodes
/// by the counts of its columns, and merged where `options` allow it; each is a front. `NoMemory` says nothing of the matrix. Near linear
/// in the entries. Liu 1990 and 1992; Gilbert, Ng and Peyton 1994.
pub fn front_tree(
    alloc: Global,
    pattern: &Pattern,
    perm: &Perm,
    options: FrontOptions,
) -> Result<Tree, NoMemory>
    requires { length perm.now ≡ length pattern.now }
    ensures { IfOk result (IsFrontTree options pattern.now perm.now) }
{
    let Analysis { assembly, .. } = analyse(alloc, pattern, perm)?;
    let merged = relaxed(alloc, assembly, options.zeros)?;
    fronts(alloc, &merged, options.shape, options.inplace)
}

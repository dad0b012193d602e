//! Laws of what is made: what holds of each seed, without a call.

ghost use Rattle.std.specs.Prelude.{ℕ, ◌≤◌};
ghost use Rattle.limits.specs.Limits.{most_tasks};
ghost use Rattle.sp_terms.specs.Values.{IsTerms};
ghost use Rattle.trees.specs.Tree.{IsTree};
ghost use Rattle.mp_gen.specs.RandomTree.{tree_of};
ghost use Rattle.mp_gen.specs.RandomWorkflow.{workflow_of};

/// What is made keeps the rules of its kind: the nodes of a random tree are a tree, and the positions of a random workflow denote
/// one term, both within the limits.
pub fn made_inputs()
    ensures tree { (seed n : ℕ) → 1 ≤ n → n ≤ most_tasks → IsTree (tree_of seed n) }
    ensures workflow { (seed n : ℕ) → 1 ≤ n → n ≤ most_tasks → IsTerms (workflow_of seed n) }
{}

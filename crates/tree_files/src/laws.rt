//! Laws of tree files: what holds of each, without a call.

ghost use Rattle.std.specs.Prelude.{◌≡◌, ◌⊎◌, ◌≤◌, ℕ, List, length};
ghost use Rattle.limits.specs.Limits.{most_bytes};
ghost use Rattle.mp_text.specs.declared.refusals.Refusal.{Refusal};
ghost use Rattle.trees.specs.declared.node.Node.{Node};
ghost use Rattle.tree_files.specs.declared.kind.TreeKind.{TreeKind};
ghost use Rattle.trees.specs.Tree.{IsTree};
ghost use Rattle.tree_files.specs.TreeFile.{ReadsTree, RefusesTree};
ghost use Rattle.tree_files.specs.TreeText.{tree_text, tree_text_2};

use crate::kind::TreeKind;
use mp_text::laws as text_laws;

/// A file is read as a tree or refused, never both; it is read as one tree only, and refused with one refusal only.
pub fn exactly_one()
    ensures some { (bytes : List ℕ) →
        ((nodes : List Node) × ReadsTree bytes nodes) ⊎ ((refusal : Refusal TreeKind) × RefusesTree bytes refusal) }
    ensures not_both { (bytes : List ℕ) (nodes : List Node) (refusal : Refusal TreeKind) →
        ReadsTree bytes nodes → RefusesTree bytes refusal → ⊥ }
    ensures one_tree { (bytes : List ℕ) (one two : List Node) → ReadsTree bytes one → ReadsTree bytes two → one ≡ two }
    ensures one_refusal { (bytes : List ℕ) (one two : Refusal TreeKind) →
        RefusesTree bytes one → RefusesTree bytes two → one ≡ two }
{
    text_laws::exactly_one::<TreeKind>();
}

/// The text of a tree, and its text in version 2, are read as that tree.
pub fn printed_tree()
    ensures text { (nodes : List Node) → IsTree nodes → ReadsTree (tree_text nodes) nodes }
    ensures text_2 { (nodes : List Node) → IsTree nodes → ReadsTree (tree_text_2 nodes) nodes }
{
    text_laws::printed_number();
    text_laws::printed_file();
}

/// The text of a tree, and its text in version 2, are within the limit of bytes, so that a file of it can be read whole.
pub fn printed_length()
    ensures text { (nodes : List Node) → IsTree nodes → length (tree_text nodes) ≤ most_bytes }
    ensures text_2 { (nodes : List Node) → IsTree nodes → length (tree_text_2 nodes) ≤ most_bytes }
{}

/// What a file is read as is a tree within the limits.
pub fn read_is_tree()
    ensures { (bytes : List ℕ) (nodes : List Node) → ReadsTree bytes nodes → IsTree nodes }
{}

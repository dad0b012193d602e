//! Laws of graph files: what holds of each, without a call.

ghost use Rattle.std.specs.Prelude.{◌≡◌, ◌⊎◌, ℕ, List};
ghost use Rattle.mp_text.specs.declared.refusals.Refusal.{Refusal};
ghost use Rattle.graph_files.specs.declared.kind.GraphKind.{GraphKind};
ghost use Rattle.graphs.specs.Graph.{TaskGraph, IsGraph};
ghost use Rattle.graph_files.specs.GraphFile.{ReadsGraph, RefusesGraph};

use crate::kind::GraphKind;
use mp_text::laws as text_laws;

/// A file is read as a graph or refused, never both; it is read as one graph only, and refused with one refusal only.
pub fn exactly_one()
    ensures some { (bytes : List ℕ) →
        ((graph : TaskGraph) × ReadsGraph bytes graph) ⊎ ((refusal : Refusal GraphKind) × RefusesGraph bytes refusal) }
    ensures not_both { (bytes : List ℕ) (graph : TaskGraph) (refusal : Refusal GraphKind) →
        ReadsGraph bytes graph → RefusesGraph bytes refusal → ⊥ }
    ensures one_graph { (bytes : List ℕ) (one two : TaskGraph) → ReadsGraph bytes one → ReadsGraph bytes two → one ≡ two }
    ensures one_refusal { (bytes : List ℕ) (one two : Refusal GraphKind) →
        RefusesGraph bytes one → RefusesGraph bytes two → one ≡ two }
{
    text_laws::exactly_one::<GraphKind>();
}

/// What a file is read as is a graph within the limits.
pub fn read_law()
    ensures { (bytes : List ℕ) (graph : TaskGraph) → ReadsGraph bytes graph → IsGraph graph }
{}

//! Laws of graph files of either version: what holds of each, without a call.

ghost use Rattle.std.specs.Prelude.{◌≡◌, ◌⊎◌, ◌≤◌, ℕ, List, length};
ghost use Rattle.limits.specs.Limits.{most_bytes};
ghost use Rattle.mp_text.specs.declared.refusals.Refusal.{Refusal};
ghost use Rattle.graph_files.specs.declared.kind.GraphKind.{GraphKind};
ghost use Rattle.shared_systems.specs.Shared.{SharedTaskSystem};
ghost use Rattle.shared_systems.specs.Bounds.{IsSharedSystem};
ghost use Rattle.shared_graph_files.specs.declared.either.EitherGraph.{EitherGraph};
ghost use Rattle.shared_graph_files.specs.EitherVersion.{StatesEither, system_of_either, ReadsSharedGraph, RefusesSharedGraph};
ghost use Rattle.shared_graph_files.specs.SharedGraphText.{graph_text_2};

use graph_files::{GraphKind, laws as graph_laws};
use mp_text::laws as text_laws;
use shared_systems::laws::one_reader_system_law;

/// A file is read as a system or refused, never both; it is read as one system only, and refused with one refusal only.
pub fn exactly_one()
    ensures some { (bytes : List ℕ) →
        ((system : SharedTaskSystem) × ReadsSharedGraph bytes system) ⊎ ((refusal : Refusal GraphKind) × RefusesSharedGraph bytes refusal) }
    ensures not_both { (bytes : List ℕ) (system : SharedTaskSystem) (refusal : Refusal GraphKind) →
        ReadsSharedGraph bytes system → RefusesSharedGraph bytes refusal → ⊥ }
    ensures one_graph { (bytes : List ℕ) (one two : SharedTaskSystem) →
        ReadsSharedGraph bytes one → ReadsSharedGraph bytes two → one ≡ two }
    ensures one_refusal { (bytes : List ℕ) (one two : Refusal GraphKind) →
        RefusesSharedGraph bytes one → RefusesSharedGraph bytes two → one ≡ two }
{
    text_laws::exactly_one::<GraphKind>();
    graph_laws::exactly_one();
}

/// What a file states is what it is read as: in version 1 the system of its graph.
pub fn either_law()
    ensures { (bytes : List ℕ) (stated : EitherGraph) → StatesEither bytes stated → ReadsSharedGraph bytes (system_of_either stated) }
{}

/// What a file is read as is a shared system within the limits.
pub fn read_law()
    ensures { (bytes : List ℕ) (system : SharedTaskSystem) → ReadsSharedGraph bytes system → IsSharedSystem system }
{
    graph_laws::read_law();
    one_reader_system_law();
}

/// The text of a shared system is read as that system.
pub fn printed_law()
    ensures { (system : SharedTaskSystem) → IsSharedSystem system → ReadsSharedGraph (graph_text_2 system) system }
{
    text_laws::printed_number();
    text_laws::printed_file();
}

/// It is within the limit of bytes, so that a file of it can be read whole.
pub fn printed_length()
    ensures { (system : SharedTaskSystem) → IsSharedSystem system → length (graph_text_2 system) ≤ most_bytes }
{}

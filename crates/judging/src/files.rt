//! A file is read whole and then judged: it has a value, or a page refuses it.

ghost use Rattle.std.specs.Prelude.{◌≡◌, ◌<◌, ◌≤◌, ℕ, List, Some, IfOk, IfErr, IsTrue, MatchResult, codes, length};
ghost use Rattle.limits.specs.Limits.{most_bytes};
ghost use Rattle.mp_text.specs.Report.{is_token};
ghost use Rattle.mp_text.specs.declared.refusals.Refusal.{Refusal};
ghost use Rattle.matrix_files.specs.MatrixFile.{ReadsPattern, RefusesPattern};
ghost use Rattle.matrix_files.specs.OrderFile.{ReadsOrder, RefusesOrder};
ghost use Rattle.matrix_files.specs.PermFile.{ReadsPerm, RefusesPerm};
ghost use Rattle.matrix_files.specs.InverseFile.{ReadsInverse, RefusesInverse};
ghost use Rattle.plan_files.specs.PlanFile.{ReadsPlan, RefusesPlan};
ghost use Rattle.bounded_plan_files.specs.BoundedPlanFile.{ReadsBoundedPlan, RefusesBoundedPlan};
ghost use Rattle.plan_orders.specs.OrderOf.{value_of};
ghost use Rattle.plan_orders.specs.PlanOrder.{ReadsPlanOrder, RefusesPlanOrder};
ghost use Rattle.fence_files.specs.FenceFile.{ReadsFences, RefusesFences};
ghost use Rattle.workflow_files.specs.WorkflowFile.{ReadsWorkflow, RefusesWorkflow};
ghost use Rattle.shared_graph_files.specs.EitherVersion.{StatesEither, ReadsSharedGraph, RefusesSharedGraph};
ghost use Rattle.tree_files.specs.TreeFile.{ReadsTree, RefusesTree};
ghost use Rattle.judging.specs.Files.{IsRefusedFile, IsWithinBytes, limit_refused};
ghost use Rattle.judging.specs.Judged.{IsStopAt, IsStopFor, IsJudged, IsRefusalOf, rank_word};

use crate::page::{format_page, limit_page};
use crate::stop::Stop;
use bounded_plan_files::read_bounded_plan;
use bounded_plans::BoundedPlan;
use fence_files::{FenceKind, read_fences};
use fences::FenceCertificate;
use graph_files::GraphKind;
use limits::LimitName;
use matrix_files::{
    MatrixKind, OrderFileKind, PermKind, read_inverse, read_order, read_pattern, read_perm,
};
use mp_outside::{Files, ReadRefusal, read_whole};
use mp_text::{Kind, Refusal};
use patterns::Pattern;
use permutations::Perm;
use plan_files::{PlanKind, read_plan};
use plan_orders::{PlannedOrder, read_plan_order};
use plans::Plan;
use shared_graph_files::{EitherGraph, read_either_graph, read_shared_graph};
use shared_systems::SharedSystem;
use sp_terms::TermList;
use std::alloc::Global;
use tree_files::{TreeKind, read_tree};
use trees::Tree;
use workflow_files::{WorkflowKind, read_workflow};

/// What a file is read as.
pub trait FileKind {
    type Value;

    type Kind: Kind;

    ghost file_word: { Self → List ℕ };

    ghost reads: { Self → List ℕ → Self.Value → Type 0 };

    ghost refuses: { Self → List ℕ → Refusal Self.Kind → Type 0 };

    /// The word for such a file in refusals.
    fn word(&self) -> &'static str
        ensures word { result.now ≡ file_word self.now }
        ensures token { IsTrue (is_token result.now) };

    /// The value of a text, or why the format refuses it. The text is handed over, so that it can be let go as soon as it is read.
    fn read(&self, alloc: Global, text: Vec<u8>) -> Result<Self::Value, Refusal<Self::Kind>>
        ensures { MatchResult result (reads self.now text.items) (IsRefusalOf (refuses self.now text.items)) };
}

// The text of a file of at most 2^28 bytes.
fn load<F: Files>(alloc: Global, files: &mut F, name: &str, word: &str) -> Result<Vec<u8>, Stop>
    requires { IsTrue (is_token word.now) }
    ensures told { IfOk result (λ bytes. (text : List ℕ) → F.bytes_of files.old name.now ≡ Some text →
        (bytes.items ≡ text) × IsWithinBytes text) }
    ensures stop { IfErr result (IsStopAt (F.bytes_of files.old) (F.faults_of files.old) (F.faults_of files.new) name.now
        (λ text answer. (most_bytes < length text) × (answer ≡ limit_refused word.now (codes "bytes")))) }
    ensures same { (other : List ℕ) → F.bytes_of files.new other ≡ F.bytes_of files.old other }
    ensures later { (other : List ℕ) → F.faults_of files.old other ≤ F.faults_of files.new other }
{
    match read_whole(alloc, files, name) {
        Ok(text) => Ok(text),
        Err(ReadRefusal::TooLong) => Err(Stop::Refused(limit_page(alloc, word, LimitName::Bytes)?)),
        Err(ReadRefusal::ReadFault) => Err(Stop::ReadFault),
        Err(ReadRefusal::NoMemory) => Err(Stop::NoMemory),
    }
}

// The value that was read, or the page that refuses the file.
fn taken<T, K: Kind>(alloc: Global, word: &str, read: Result<T, Refusal<K>>) -> Result<T, Stop>
    requires { IsTrue (is_token word.now) }
    ensures { MatchResult result (λ value. read ≡ Ok value) (IsStopFor word.now K.word_of read) }
{
    match read {
        Ok(value) => Ok(value),
        Err(Refusal::Format(fault)) => {
            let page = format_page(alloc, word, fault.kind.word(), fault.line)?;
            Err(Stop::Refused(page))
        }
        Err(Refusal::Limit(limit)) => Err(Stop::Refused(limit_page(alloc, word, limit)?)),
        Err(Refusal::NoMemory) => Err(Stop::NoMemory),
    }
}

/// The value of the file of this name. The file is read whole before it is judged.
pub fn judge<F: Files, K: FileKind>(
    alloc: Global,
    files: &mut F,
    name: &str,
    kind: &K,
) -> Result<K::Value, Stop>
    ensures judged { IsJudged (F.bytes_of files.old) (F.faults_of files.old) (F.faults_of files.new) name.now
        (λ text value. IsWithinBytes text × K.reads kind.now text value)
        (λ text. IsRefusedFile (K.file_word kind.now) K.Kind.word_of (K.refuses kind.now text) text) result }
    // whether the files tell their texts or not
    ensures read { IfOk result (λ value. (text : List ℕ) × K.reads kind.now text value) }
    ensures same { (other : List ℕ) → F.bytes_of files.new other ≡ F.bytes_of files.old other }
    ensures later { (other : List ℕ) → F.faults_of files.old other ≤ F.faults_of files.new other }
{
    let word = kind.word();
    let text = load(alloc, files, name, word)?;
    let read = kind.read(alloc, text);
    taken(alloc, word, read)
}

/// A tree file.
#[derive(Clone, Copy, Debug)]
pub struct TreeFile;

impl FileKind for TreeFile {
    type Value = Tree;

    type Kind = TreeKind;

    ghost file_word = { λ _. codes "tree" };

    ghost reads = { λ _. ReadsTree };

    ghost refuses = { λ _. RefusesTree };

    fn word(&self) -> &'static str {
        "tree"
    }

    fn read(&self, alloc: Global, text: Vec<u8>) -> Result<Tree, Refusal<TreeKind>> {
        read_tree(alloc, &text)
    }
}

/// A workflow file.
#[derive(Clone, Copy, Debug)]
pub struct WorkflowFile;

impl FileKind for WorkflowFile {
    type Value = TermList;

    type Kind = WorkflowKind;

    ghost file_word = { λ _. codes "workflow" };

    ghost reads = { λ _. ReadsWorkflow };

    ghost refuses = { λ _. RefusesWorkflow };

    fn word(&self) -> &'static str {
        "workflow"
    }

    fn read(&self, alloc: Global, text: Vec<u8>) -> Result<TermList, Refusal<WorkflowKind>> {
        read_workflow(alloc, &text)
    }
}

/// A task graph file of either version, as it is stated.
#[derive(Clone, Copy, Debug)]
pub struct EitherGraphFile;

impl FileKind for EitherGraphFile {
    type Value = EitherGraph;

    type Kind = GraphKind;

    ghost file_word = { λ _. codes "graph" };

    ghost reads = { λ _. StatesEither };

    ghost refuses = { λ _. RefusesSharedGraph };

    fn word(&self) -> &'static str {
        "graph"
    }

    fn read(&self, alloc: Global, text: Vec<u8>) -> Result<EitherGraph, Refusal<GraphKind>> {
        read_either_graph(alloc, &text)
    }
}

/// A task graph file of either version, as a system whose items may have several readers.
#[derive(Clone, Copy, Debug)]
pub struct SharedGraphFile;

impl FileKind for SharedGraphFile {
    type Value = SharedSystem;

    type Kind = GraphKind;

    ghost file_word = { λ _. codes "graph" };

    ghost reads = { λ _. ReadsSharedGraph };

    ghost refuses = { λ _. RefusesSharedGraph };

    fn word(&self) -> &'static str {
        "graph"
    }

    fn read(&self, alloc: Global, text: Vec<u8>) -> Result<SharedSystem, Refusal<GraphKind>> {
        read_shared_graph(alloc, &text)
    }
}

/// A matrix file.
#[derive(Clone, Copy, Debug)]
pub struct MatrixFile;

impl FileKind for MatrixFile {
    type Value = Pattern;

    type Kind = MatrixKind;

    ghost file_word = { λ _. codes "matrix" };

    ghost reads = { λ _. ReadsPattern };

    ghost refuses = { λ _. RefusesPattern };

    fn word(&self) -> &'static str {
        "matrix"
    }

    fn read(&self, alloc: Global, text: Vec<u8>) -> Result<Pattern, Refusal<MatrixKind>> {
        read_pattern(alloc, text)
    }
}

/// What a permutation is of.
#[derive(Clone, Copy, Debug, PartialEq, Eq)]
pub enum Ranked {
    /// The vertices of a matrix, in an order of elimination.
    Vertices,
    /// The tasks of an input, by their priority.
    Tasks,
}

/// A file of a permutation of 1 to `n`.
#[derive(Clone, Copy, Debug)]
pub struct PermFile {
    pub ranked: Ranked,
    pub n: u32,
}

impl FileKind for PermFile {
    type Value = Perm;

    type Kind = PermKind;

    ghost file_word = { λ file. rank_word file.ranked };

    ghost reads = { λ file. ReadsPerm file.n };

    ghost refuses = { λ file. RefusesPerm file.n };

    fn word(&self) -> &'static str {
        match self.ranked {
            Ranked::Vertices => "perm",
            Ranked::Tasks => "priority",
        }
    }

    fn read(&self, alloc: Global, text: Vec<u8>) -> Result<Perm, Refusal<PermKind>> {
        read_perm(alloc, &text, self.n)
    }
}

/// A file of the inverse of an order in which `n` vertices are eliminated.
#[derive(Clone, Copy, Debug)]
pub struct InverseFile {
    pub n: u32,
}

impl FileKind for InverseFile {
    type Value = Perm;

    type Kind = PermKind;

    ghost file_word = { λ _. codes "iperm" };

    ghost reads = { λ file. ReadsInverse file.n };

    ghost refuses = { λ file. RefusesInverse file.n };

    fn word(&self) -> &'static str {
        "iperm"
    }

    fn read(&self, alloc: Global, text: Vec<u8>) -> Result<Perm, Refusal<PermKind>> {
        read_inverse(alloc, &text, self.n)
    }
}

/// An order file.
#[derive(Clone, Copy, Debug)]
pub struct OrderFile;

impl FileKind for OrderFile {
    type Value = Vec<u32>;

    type Kind = OrderFileKind;

    ghost file_word = { λ _. codes "order" };

    ghost reads = { λ _ text numbers. ReadsOrder text numbers.items };

    ghost refuses = { λ _. RefusesOrder };

    fn word(&self) -> &'static str {
        "order"
    }

    fn read(&self, alloc: Global, text: Vec<u8>) -> Result<Vec<u32>, Refusal<OrderFileKind>> {
        read_order(alloc, &text)
    }
}

/// A plan file.
#[derive(Clone, Copy, Debug)]
pub struct PlanFile;

impl FileKind for PlanFile {
    type Value = Plan;

    type Kind = PlanKind;

    ghost file_word = { λ _. codes "plan" };

    ghost reads = { λ _. ReadsPlan };

    ghost refuses = { λ _. RefusesPlan };

    fn word(&self) -> &'static str {
        "plan"
    }

    fn read(&self, alloc: Global, text: Vec<u8>) -> Result<Plan, Refusal<PlanKind>> {
        read_plan(alloc, &text)
    }
}

/// A plan of any form, of which the order is taken.
#[derive(Clone, Copy, Debug)]
pub struct PlannedOrderFile;

impl FileKind for PlannedOrderFile {
    type Value = PlannedOrder;

    type Kind = PlanKind;

    ghost file_word = { λ _. codes "plan" };

    ghost reads = { λ _ text plan. ReadsPlanOrder text (value_of plan) };

    ghost refuses = { λ _. RefusesPlanOrder };

    fn word(&self) -> &'static str {
        "plan"
    }

    fn read(&self, alloc: Global, text: Vec<u8>) -> Result<PlannedOrder, Refusal<PlanKind>> {
        read_plan_order(alloc, &text)
    }
}

/// A plan file of version 3.
#[derive(Clone, Copy, Debug)]
pub struct BoundedPlanFile;

impl FileKind for BoundedPlanFile {
    type Value = BoundedPlan;

    type Kind = PlanKind;

    ghost file_word = { λ _. codes "plan" };

    ghost reads = { λ _. ReadsBoundedPlan };

    ghost refuses = { λ _. RefusesBoundedPlan };

    fn word(&self) -> &'static str {
        "plan"
    }

    fn read(&self, alloc: Global, text: Vec<u8>) -> Result<BoundedPlan, Refusal<PlanKind>> {
        read_bounded_plan(alloc, &text)
    }
}

/// A file of fences.
#[derive(Clone, Copy, Debug)]
pub struct FencesFile;

impl FileKind for FencesFile {
    type Value = FenceCertificate;

    type Kind = FenceKind;

    ghost file_word = { λ _. codes "fences" };

    ghost reads = { λ _. ReadsFences };

    ghost refuses = { λ _. RefusesFences };

    fn word(&self) -> &'static str {
        "fences"
    }

    fn read(&self, alloc: Global, text: Vec<u8>) -> Result<FenceCertificate, Refusal<FenceKind>> {
        read_fences(alloc, &text)
    }
}

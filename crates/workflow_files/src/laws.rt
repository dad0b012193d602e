//! Laws of workflow files: what holds of each, without a call.
ghost use Rattle.std.specs.Prelude.{◌≡◌, ◌⊎◌, ℕ, ◌+◌, ◌*◌, ◌<◌, ◌≤◌, ◌++◌, All, IsTrue, List, length};
ghost use Rattle.std.specs.List.{list_all};
ghost use Rattle.limits.specs.Limits.{most_bytes, most_tasks};
ghost use Rattle.mp_text.specs.Comments.{is_comment_line};
ghost use Rattle.mp_text.specs.Report.{text_of_lines};
ghost use Rattle.mp_text.specs.declared.refusals.Refusal.{Refusal};
ghost use Rattle.workflow_files.specs.declared.kind.WorkflowKind.{WorkflowKind};
ghost use Rattle.sp_terms.specs.declared.position.Position.{Position};
ghost use Rattle.sp_terms.specs.Values.{IsTerms};
ghost use Rattle.workflow_files.specs.WorkflowFile.{ReadsWorkflow, RefusesWorkflow};
ghost use Rattle.workflow_files.specs.WorkflowText.{workflow_text, workflow_text_2};
ghost use Rattle.workflow_files.specs.NamedText.{named_text};

use crate::kind::WorkflowKind;
use mp_text::laws as text_laws;

/// A file is read as terms or refused, never both; it is read as one list of positions only, and refused with one refusal only.
pub fn exactly_one()
    ensures some { (bytes : List ℕ) →
        ((positions : List Position) × ReadsWorkflow bytes positions) ⊎ ((refusal : Refusal WorkflowKind) × RefusesWorkflow bytes refusal) }
    ensures not_both { (bytes : List ℕ) (positions : List Position) (refusal : Refusal WorkflowKind) →
        ReadsWorkflow bytes positions → RefusesWorkflow bytes refusal → ⊥ }
    ensures one_workflow { (bytes : List ℕ) (one two : List Position) →
        ReadsWorkflow bytes one → ReadsWorkflow bytes two → one ≡ two }
    ensures one_refusal { (bytes : List ℕ) (one two : Refusal WorkflowKind) →
        RefusesWorkflow bytes one → RefusesWorkflow bytes two → one ≡ two }
{
    text_laws::exactly_one::<WorkflowKind>();
}

/// What a file is read as denotes one term within the limits.
pub fn read_law()
    ensures { (bytes : List ℕ) (positions : List Position) → ReadsWorkflow bytes positions → IsTerms positions }
{}

/// The text of a workflow, and its text in version 2, are read as that workflow.
pub fn printed_workflow()
    ensures text { (positions : List Position) → IsTerms positions → ReadsWorkflow (workflow_text positions) positions }
    ensures text_2 { (positions : List Position) → IsTerms positions → ReadsWorkflow (workflow_text_2 positions) positions }
{
    text_laws::printed_number();
    text_laws::printed_file();
}

/// The text of a workflow, and its text in version 2, are within the limit of bytes, so that a file of it can be read whole.
pub fn printed_length()
    ensures text { (positions : List Position) → IsTerms positions → length (workflow_text positions) ≤ most_bytes }
    ensures text_2 { (positions : List Position) → IsTerms positions → length (workflow_text_2 positions) ≤ most_bytes }
{}

/// A workflow file with comments after its last line is read as the same workflow. It leaves room for them within the limit of bytes:
/// 50 bytes for each of as many tasks as there can be.
pub fn commented_workflow()
    ensures reads { (positions : List Position) (comments : List (List (List ℕ))) → IsTerms positions →
        IsTrue (list_all is_comment_line comments) →
        ReadsWorkflow (workflow_text positions ++ text_of_lines comments) positions }
    ensures room { (positions : List Position) → IsTerms positions → length (workflow_text positions) + 50 * most_tasks ≤ most_bytes }
{
    text_laws::printed_number();
    text_laws::printed_file();
    text_laws::printed_lines();
    text_laws::printed_comments();
}

/// The workflow file with names of tasks is read as the workflow, and is within the limit of bytes: where the names are at most as many as
/// there can be tasks, and each is at most as great as the number of a task can be.
pub fn named_workflow()
    ensures reads { (positions : List Position) (names : List ℕ) → IsTerms positions →
        length names ≤ most_tasks → All (λ v. v ≤ most_tasks) names → ReadsWorkflow (named_text positions names) positions }
    ensures length { (positions : List Position) (names : List ℕ) → IsTerms positions →
        length names ≤ most_tasks → All (λ v. v ≤ most_tasks) names → length (named_text positions names) ≤ most_bytes }
{
    commented_workflow();
    text_laws::printed_number();
}

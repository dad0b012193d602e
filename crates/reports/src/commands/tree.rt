//! `tree`: the tree of the fronts of a matrix.

ghost use Rattle.std.specs.Prelude.{◌≡◌, ◌≤◌, ℕ, List, IfOk};
ghost use Rattle.reports.specs.Tree.{tree_answer};
ghost use Rattle.reports.specs.Reported.{IsReported};
ghost use Rattle.judging.specs.Pages.{answer_of};
ghost use Rattle.requests.specs.Request.{tree};
ghost use Rattle.requests.specs.RequestViews.{matrix_view};

use judging::{Page, PageKind, Stop, judge_matrix};
use mp_outside::Files;
use mp_text::Report;
use requests::Matrix;
use std::alloc::{AllocError, Global};
use tree_files::print_tree;
use trees::Tree;

// A tree file.
fn tree_page(alloc: Global, tree: &Tree) -> Result<Page, AllocError>
    ensures { IfOk result (λ page. answer_of page ≡ tree_answer tree.now) }
{
    let mut report = Report::new(alloc);
    print_tree(tree, &mut report)?;
    let kind = PageKind::Done;
    Ok(Page { kind, report })
}

/// The tree of the matrix, as a file.
pub fn report_tree<F: Files>(alloc: Global, files: &mut F, matrix: Matrix<'_>) -> Result<Page, Stop>
    ensures told { IsReported (F.bytes_of files.old) (F.faults_of files.old) (F.faults_of files.new)
        (tree (matrix_view matrix.entry)) result }
    ensures same { (other : List ℕ) → F.bytes_of files.new other ≡ F.bytes_of files.old other }
    ensures later { (other : List ℕ) → F.faults_of files.old other ≤ F.faults_of files.new other }
{
    let tree = judge_matrix(alloc, files, matrix)?;
    Ok(tree_page(alloc, &tree)?)
}

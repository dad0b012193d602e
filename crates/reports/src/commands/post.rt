//! `post`: the best postorder of a tree, and its peak.

ghost use Rattle.std.specs.Prelude.{◌≡◌, ◌≤◌, ℕ, List, IfOk};
ghost use Rattle.reports.specs.Post.{IsPost, post_answer};
ghost use Rattle.reports.specs.Reported.{IsReported};
ghost use Rattle.judging.specs.Pages.{answer_of};
ghost use Rattle.requests.specs.Request.{post};
ghost use Rattle.requests.specs.RequestViews.{tree_input_view};

use judging::{Page, PageKind, Stop, judge_tree, print_count, print_end, print_numbers};
use mp_outside::Files;
use mp_text::Report;
use mp_text::laws::printed_lines;
use postorder_best::best_postorder;
use requests::TreeInput;
use std::alloc::{AllocError, Global};
use trees::Tree;

/// `peak PEAK`, `order N`, the tasks, `end`.
pub fn post_page(alloc: Global, peak: u64, order: &[u32]) -> Result<Page, AllocError>
    ensures { IfOk result (λ page. answer_of page ≡ post_answer peak order.now) }
{
    printed_lines();
    let mut report = Report::new(alloc);
    print_count("peak", peak, &mut report)?;
    print_count("order", order.len() as u64, &mut report)?;
    print_numbers(order, &mut report)?;
    print_end(&mut report)?;
    let kind = PageKind::Done;
    Ok(Page { kind, report })
}

// The page of the best postorder.
fn best_page(alloc: Global, tree: &Tree) -> Result<Page, AllocError>
    ensures { IfOk result (λ page. IsPost tree.now (answer_of page)) }
{
    let post = best_postorder(alloc, tree)?;
    post_page(alloc, post.peak, &post.order)
}

/// The best postorder, node by node.
pub fn report_post<F: Files>(
    alloc: Global,
    files: &mut F,
    input: TreeInput<'_>,
) -> Result<Page, Stop>
    ensures told { IsReported (F.bytes_of files.old) (F.faults_of files.old) (F.faults_of files.new)
        (post (tree_input_view input.entry)) result }
    ensures same { (other : List ℕ) → F.bytes_of files.new other ≡ F.bytes_of files.old other }
    ensures later { (other : List ℕ) → F.faults_of files.old other ≤ F.faults_of files.new other }
{
    let tree = judge_tree(alloc, files, input)?;
    Ok(best_page(alloc, &tree)?)
}

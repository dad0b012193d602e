//! `bound`: a number that no order of a task graph has a peak below, with its evidence.

ghost use Rattle.std.specs.Prelude.{◌≡◌, ◌≤◌, ◌++◌, ℕ, List, None, Some, IfOk, OnOk, IsTrue, option_map};
ghost use Rattle.mp_text.specs.Report.{is_line_start};
ghost use Rattle.reports.specs.Bound.{peak_text, IsBoundTold, IsBoundAnswer};
ghost use Rattle.reports.specs.Reported.{IsReported};
ghost use Rattle.judging.specs.Pages.{answer_of};
ghost use Rattle.requests.specs.Request.{bounding};

use bound_search::certify_bound;
use bounded_plan_files::print_bound;
use bounded_plans::BoundEvidence;
use judging::{OrderFile, Page, PageKind, SharedGraphFile, Stop, judge, order_page, print_count};
use mp_outside::Files;
use mp_system::ReplayRefusal;
use mp_text::Report;
use mp_text::laws::printed_lines;
use requests::Bounding;
use shared_systems::SharedSystem;
use std::alloc::{AllocError, Global};

// `peak PEAK`, if there is one.
fn print_peak(peak: Option<u64>, report: &mut Report) -> Result<(), AllocError>
    requires { IsTrue (is_line_start report.old) }
    ensures start { OnOk result (IsTrue (is_line_start report.new)) }
    ensures text { OnOk result (report.new ≡ report.old ++ peak_text peak) }
{
    match peak {
        None => Ok(()),
        Some(peak) => print_count("peak", peak, report),
    }
}

// That, and the bound with its evidence.
fn bound_page(
    alloc: Global,
    system: &SharedSystem,
    peak: Option<u64>,
    effort: u64,
) -> Result<Page, AllocError>
    ensures { IfOk result (λ page. IsBoundTold system.now peak (answer_of page)) }
{
    printed_lines();
    let found = certify_bound(alloc, system, effort)?;
    let mut report = Report::new(alloc);
    print_peak(peak, &mut report)?;
    let evidence = BoundEvidence::Sums(found.evidence);
    print_bound(found.bound, &evidence, &mut report)?;
    let kind = PageKind::Done;
    Ok(Page { kind, report })
}

// The same with the peak of an order, or where the order is no traversal.
fn beside_page(
    alloc: Global,
    system: &SharedSystem,
    order: &[u32],
    effort: u64,
) -> Result<Page, AllocError>
    ensures { IfOk result (λ page. IsBoundAnswer system.now (Some order.now) (answer_of page)) }
{
    match system.peak(alloc, order) {
        Ok(peak) => bound_page(alloc, system, Some(peak), effort),
        Err(ReplayRefusal::Order(fault)) => order_page(alloc, fault),
        Err(ReplayRefusal::NoMemory) => Err(AllocError),
    }
}

// Of a graph alone.
fn report_alone<F: Files>(
    alloc: Global,
    files: &mut F,
    graph: &str,
    effort: u64,
) -> Result<Page, Stop>
    ensures told { IsReported (F.bytes_of files.old) (F.faults_of files.old) (F.faults_of files.new)
        (bounding graph.now None effort) result }
    ensures same { (other : List ℕ) → F.bytes_of files.new other ≡ F.bytes_of files.old other }
    ensures later { (other : List ℕ) → F.faults_of files.old other ≤ F.faults_of files.new other }
{
    let system = judge(alloc, files, graph, &SharedGraphFile)?;
    Ok(bound_page(alloc, &system, None, effort)?)
}

// Of a graph and an order of its tasks.
fn report_beside<F: Files>(
    alloc: Global,
    files: &mut F,
    graph: &str,
    order: &str,
    effort: u64,
) -> Result<Page, Stop>
    ensures told { IsReported (F.bytes_of files.old) (F.faults_of files.old) (F.faults_of files.new)
        (bounding graph.now (Some order.now) effort) result }
    ensures same { (other : List ℕ) → F.bytes_of files.new other ≡ F.bytes_of files.old other }
    ensures later { (other : List ℕ) → F.faults_of files.old other ≤ F.faults_of files.new other }
{
    let system = judge(alloc, files, graph, &SharedGraphFile)?;
    let numbers = judge(alloc, files, order, &OrderFile)?;
    Ok(beside_page(alloc, &system, &numbers, effort)?)
}

/// A bound on the peak of every order of the graph, with its evidence; behind the peak of an order, where one is named, or in place of both
/// the first fault of an order that is no traversal.
pub fn report_bound<F: Files>(
    alloc: Global,
    files: &mut F,
    asked: Bounding<'_>,
) -> Result<Page, Stop>
    ensures told { IsReported (F.bytes_of files.old) (F.faults_of files.old) (F.faults_of files.new)
        (bounding asked.entry.graph.now (option_map (λ name. name.now) asked.entry.order) asked.entry.effort) result }
    ensures same { (other : List ℕ) → F.bytes_of files.new other ≡ F.bytes_of files.old other }
    ensures later { (other : List ℕ) → F.faults_of files.old other ≤ F.faults_of files.new other }
{
    match asked.order {
        None => report_alone(alloc, files, asked.graph, asked.effort),
        Some(order) => report_beside(alloc, files, asked.graph, order, asked.effort),
    }
}

//! `plan` of a task graph: an order, its peak, and a bound that no order has a peak below, with its evidence.

ghost use Rattle.std.specs.Prelude.{◌≡◌, ◌≤◌, ◌⊎◌, ℕ, List, None, Some, IfOk, option_map};
ghost use Rattle.reports.specs.PlanGraph.{bounded_answer, IsGraphPlanTold, IsFaultTold};
ghost use Rattle.reports.specs.Reported.{IsReported};
ghost use Rattle.judging.specs.Pages.{answer_of};
ghost use Rattle.requests.specs.Request.{plan_graph};
ghost use Rattle.requests.specs.RequestViews.{format_view};

use bounded_plan_files::{bounded_plan_json, print_bounded_plan};
use bounded_plans::BoundedPlan;
use graph_plan::{plan_from, plan_graph};
use judging::{OrderFile, Page, PageKind, SharedGraphFile, Stop, judge, line_page, order_page};
use mp_outside::Files;
use mp_system::ReplayRefusal;
use mp_text::Report;
use mp_text::Token::Word;
use requests::{GraphPlan, PlanFormat};
use shared_systems::SharedSystem;
use std::alloc::{AllocError, Global};

// A plan file, or the JSON of the plan.
fn plan_page(alloc: Global, format: PlanFormat, plan: &BoundedPlan) -> Result<Page, AllocError>
    ensures { IfOk result (λ page. answer_of page ≡ bounded_answer (format_view format) plan.now) }
{
    let kind = PageKind::Done;
    match format {
        PlanFormat::File => {
            let mut report = Report::new(alloc);
            print_bounded_plan(plan, &mut report)?;
            Ok(Page { kind, report })
        }
        PlanFormat::Json => {
            let text = bounded_plan_json(alloc, plan)?;
            line_page(alloc, kind, &[Word(text.as_str())])
        }
    }
}

// The plan of a system.
fn own_page(
    alloc: Global,
    system: &SharedSystem,
    effort: u64,
    format: PlanFormat,
) -> Result<Page, AllocError>
    ensures { IfOk result (λ page. IsGraphPlanTold system.now None (format_view format) (answer_of page)) }
{
    let plan = plan_graph(alloc, system, effort)?;
    plan.keeps();
    plan_page(alloc, format, &plan)
}

// The same from an order, or where the order is no traversal.
fn from_page(
    alloc: Global,
    system: &SharedSystem,
    order: &[u32],
    effort: u64,
    format: PlanFormat,
) -> Result<Page, AllocError>
    ensures { IfOk result (λ page. IsGraphPlanTold system.now (Some order.now) (format_view format) (answer_of page)
        ⊎ IsFaultTold system.now (Some order.now) (answer_of page)) }
{
    match system.peak(alloc, order) {
        Ok(_) => {
            let plan = plan_from(alloc, system, order, effort)?;
            plan.keeps();
            plan_page(alloc, format, &plan)
        }
        Err(ReplayRefusal::Order(fault)) => order_page(alloc, fault),
        Err(ReplayRefusal::NoMemory) => Err(AllocError),
    }
}

// Of a graph alone.
fn report_alone<F: Files>(
    alloc: Global,
    files: &mut F,
    graph: &str,
    effort: u64,
    format: PlanFormat,
) -> Result<Page, Stop>
    ensures told { IsReported (F.bytes_of files.old) (F.faults_of files.old) (F.faults_of files.new)
        (plan_graph graph.now None effort (format_view format)) result }
    ensures same { (other : List ℕ) → F.bytes_of files.new other ≡ F.bytes_of files.old other }
    ensures later { (other : List ℕ) → F.faults_of files.old other ≤ F.faults_of files.new other }
{
    let system = judge(alloc, files, graph, &SharedGraphFile)?;
    Ok(own_page(alloc, &system, effort, format)?)
}

// Of a graph and an order of its tasks.
fn report_from<F: Files>(
    alloc: Global,
    files: &mut F,
    graph: &str,
    order: &str,
    effort: u64,
    format: PlanFormat,
) -> Result<Page, Stop>
    ensures told { IsReported (F.bytes_of files.old) (F.faults_of files.old) (F.faults_of files.new)
        (plan_graph graph.now (Some order.now) effort (format_view format)) result }
    ensures same { (other : List ℕ) → F.bytes_of files.new other ≡ F.bytes_of files.old other }
    ensures later { (other : List ℕ) → F.faults_of files.old other ≤ F.faults_of files.new other }
{
    let system = judge(alloc, files, graph, &SharedGraphFile)?;
    let numbers = judge(alloc, files, order, &OrderFile)?;
    Ok(from_page(alloc, &system, &numbers, effort, format)?)
}

/// A plan of the graph, as a file or as JSON: no worse than an order, where one is named, or in its place the first fault of an order that is
/// no traversal.
pub fn report_plan_graph<F: Files>(
    alloc: Global,
    files: &mut F,
    asked: GraphPlan<'_>,
) -> Result<Page, Stop>
    ensures told { IsReported (F.bytes_of files.old) (F.faults_of files.old) (F.faults_of files.new)
        (plan_graph asked.entry.graph.now (option_map (λ name. name.now) asked.entry.order) asked.entry.effort
        (format_view asked.entry.format)) result }
    ensures same { (other : List ℕ) → F.bytes_of files.new other ≡ F.bytes_of files.old other }
    ensures later { (other : List ℕ) → F.faults_of files.old other ≤ F.faults_of files.new other }
{
    match asked.order {
        None => report_alone(alloc, files, asked.graph, asked.effort, asked.format),
        Some(order) => report_from(alloc, files, asked.graph, order, asked.effort, asked.format),
    }
}

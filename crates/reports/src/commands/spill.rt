//! `spill`: what must go to disk where an order of tasks runs within a bound below its peak.

ghost use Rattle.std.specs.Prelude.{◌≡◌, ◌≤◌, ◌++◌, ℕ, List, IfOk, OnOk, IsTrue, length, map};
ghost use Rattle.mp_text.specs.Report.{is_line_start, text_of_lines};
ghost use Rattle.least_peak.specs.Problem.{system_of};
ghost use Rattle.reports.specs.Spill.{spilled_items, amount_line, spill_answer, working_set_refused, IsSpillAnswer};
ghost use Rattle.reports.specs.SpilledGaps.{IsSpillAnswerOf};
ghost use Rattle.reports.specs.Reported.{IsReported};
ghost use Rattle.judging.specs.Pages.{answer_of};
ghost use Rattle.requests.specs.Request.{spill as spilling};
ghost use Rattle.requests.specs.RequestViews.{tasks_view, source_view};

use crate::commands::gap_report::gap_page;
use judging::{
    Page, PageKind, Stop, Tasks, judge_ordered_tasks, line_page, order_page, print_count, print_end,
};
use least_peak::Problem;
use mp_outside::Files;
use mp_text::Report;
use mp_text::Token::{Number, Word};
use mp_text::laws::printed_lines;
use requests::Spilling;
use spill_plan::{Spill, SpillRefusal};
use std::alloc::{AllocError, Global};

// ---- the report

/// How many amounts are above 0.
pub fn spilled_count(amounts: &[u64]) -> u64
    ensures { result ≡ length (spilled_items amounts.now) }
{
    amounts.iter().filter(|amount| **amount > 0).count() as u64
}

// `ITEM AMOUNT` for each of them.
fn print_amounts(amounts: &[u64], report: &mut Report) -> Result<(), AllocError>
    requires { IsTrue (is_line_start report.old) }
    ensures start { OnOk result (IsTrue (is_line_start report.new)) }
    ensures text { OnOk result (report.new ≡ report.old ++ text_of_lines (map amount_line (spilled_items amounts.now))) }
{
    printed_lines();
    for (place, amount) in amounts.iter().enumerate() {
        if *amount > 0 {
            report.line(&[Number(place as u64 + 1), Number(*amount)])?;
        }
    }
    Ok(())
}

// `volume V`, `items K`, the items, `end`
fn amounts_page(alloc: Global, spill: &Spill) -> Result<Page, AllocError>
    ensures { IfOk result (λ page. answer_of page ≡ spill_answer spill.now.volume spill.now.amounts.items) }
{
    printed_lines();
    let mut report = Report::new(alloc);
    print_count("volume", spill.volume, &mut report)?;
    print_count("items", spilled_count(&spill.amounts), &mut report)?;
    print_amounts(&spill.amounts, &mut report)?;
    print_end(&mut report)?;
    let kind = PageKind::Done;
    Ok(Page { kind, report })
}

/// `refused working-set STEP NEED BOUND`
pub fn working_set_page(alloc: Global, step: u64, need: u64, bound: u64) -> Result<Page, AllocError>
    ensures { IfOk result (λ page. answer_of page ≡ working_set_refused step need bound) }
{
    let (refused, kind) = (Word("refused"), Word("working-set"));
    let words = [refused, kind, Number(step), Number(need), Number(bound)];
    line_page(alloc, PageKind::WorkingSet, &words)
}

// What goes to disk of the items of a problem, or why the order cannot run within the bound.
fn spill_page(
    alloc: Global,
    problem: &Problem,
    order: &[u32],
    bound: u64,
) -> Result<Page, AllocError>
    ensures { IfOk result (λ page. IsSpillAnswer (system_of problem.now) order.now bound (answer_of page)) }
{
    let system = problem.system(alloc)?;
    match spill_plan::spill(alloc, &system, order, bound) {
        Ok(spill) => amounts_page(alloc, &spill),
        Err(SpillRefusal::Order(fault)) => order_page(alloc, fault),
        Err(SpillRefusal::WorkingSet { step, need, bound }) => {
            working_set_page(alloc, step, need, bound)
        }
        Err(SpillRefusal::NoMemory) => Err(AllocError),
    }
}

// The same of tasks: of the items of a problem, or of the gaps between the uses of a graph's items.
fn tasks_page(alloc: Global, tasks: &Tasks, order: &[u32], bound: u64) -> Result<Page, AllocError>
    ensures { IfOk result (λ page. IsSpillAnswerOf tasks.now order.now bound (answer_of page)) }
{
    match tasks {
        Tasks::Problem(problem) => spill_page(alloc, problem, order, bound),
        Tasks::Graph(system) => gap_page(alloc, system, order, bound),
    }
}

/// The least that goes to disk, or why the order cannot run within the bound.
pub fn report_spill<F: Files>(
    alloc: Global,
    files: &mut F,
    asked: Spilling<'_>,
) -> Result<Page, Stop>
    ensures told { IsReported (F.bytes_of files.old) (F.faults_of files.old) (F.faults_of files.new)
        (spilling (tasks_view asked.entry.tasks) (source_view asked.entry.source) asked.entry.bound) result }
    ensures same { (other : List ℕ) → F.bytes_of files.new other ≡ F.bytes_of files.old other }
    ensures later { (other : List ℕ) → F.faults_of files.old other ≤ F.faults_of files.new other }
{
    let ordered = judge_ordered_tasks(alloc, files, asked.tasks, asked.source)?;
    let order = ordered.order.numbers();
    Ok(tasks_page(alloc, &ordered.tasks, order, asked.bound)?)
}

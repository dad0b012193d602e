//! `fronts`: the rows of every front of a matrix, made in rounds within a bound on the rows that are held.

ghost use Rattle.std.specs.Prelude.{◌≡◌, ◌≤◌, ◌++◌, ℕ, List, IfOk, OnOk, IsTrue, length, map};
ghost use Rattle.mp_text.specs.Report.{is_line_start, text_of_lines};
ghost use Rattle.reports.specs.Fronts.{number_line, fronts_answer, IsFrontsAnswer};
ghost use Rattle.reports.specs.Reported.{IsReported};
ghost use Rattle.judging.specs.Pages.{answer_of};
ghost use Rattle.requests.specs.Request.{AreWorkers, fronts as making};
ghost use Rattle.requests.specs.RequestViews.{ordered_matrix_view};

use judging::{
    OrderedPattern, Page, PageKind, Stop, bound_page, judge_pattern, print_count, print_end,
    print_list,
};
use mp_outside::{Files, Gate};
use mp_text::Report;
use mp_text::laws::printed_lines;
use requests::FrontRun;
use rounds_run::{Fronts, FrontsRefusal, run_fronts};
use std::alloc::{AllocError, Global};
use std::thread::Threads;
use symbolic::analyse;

// ---- the report

// The fronts of each round on a line.
fn print_rounds(fronts: &Fronts, report: &mut Report) -> Result<(), AllocError>
    requires { IsTrue (is_line_start report.old) }
    ensures start { OnOk result (IsTrue (is_line_start report.new)) }
    ensures text { OnOk result (report.new ≡ report.old ++ text_of_lines (map number_line fronts.now.rounds)) }
{
    printed_lines();
    for r in 0..fronts.rounds() {
        print_list(fronts.round(r + 1), report)?;
    }
    Ok(())
}

// The rows of each front on a line.
fn print_rows(fronts: &Fronts, report: &mut Report) -> Result<(), AllocError>
    requires { IsTrue (is_line_start report.old) }
    ensures start { OnOk result (IsTrue (is_line_start report.new)) }
    ensures text { OnOk result (report.new ≡ report.old ++ text_of_lines (map number_line fronts.now.rows)) }
{
    printed_lines();
    for s in 0..fronts.len() {
        print_list(fronts.rows(s + 1), report)?;
    }
    Ok(())
}

// `fronts M`, `rounds R`, `used U`, the rounds, the rows, `end`
fn fronts_page(alloc: Global, fronts: &Fronts) -> Result<Page, AllocError>
    ensures { IfOk result (λ page. answer_of page ≡ fronts_answer fronts.now.rounds fronts.now.used fronts.now.rows) }
{
    printed_lines();
    let mut report = Report::new(alloc);
    print_count("fronts", u64::from(fronts.len()), &mut report)?;
    print_count("rounds", u64::from(fronts.rounds()), &mut report)?;
    print_count("used", fronts.used(), &mut report)?;
    print_rounds(fronts, &mut report)?;
    print_rows(fronts, &mut report)?;
    print_end(&mut report)?;
    let kind = PageKind::Done;
    Ok(Page { kind, report })
}

// The rows of the fronts, or the bound that is below their peak.
fn made_page<R: Threads + Sync, G: Gate>(
    rt: &R,
    alloc: Global,
    read: &OrderedPattern,
    bound: u64,
    workers: u32,
    gate: &G,
) -> Result<Page, AllocError>
    requires len { length read.now.order ≡ length read.now.pattern }
    requires workers { AreWorkers workers }
    ensures { IfOk result (λ page. IsFrontsAnswer read.now.pattern read.now.order bound workers (answer_of page)) }
{
    let analysis = analyse(alloc, &read.pattern, &read.order)?;
    match run_fronts(
        rt,
        alloc,
        &read.pattern,
        &analysis.numbered,
        &analysis.assembly,
        bound,
        workers,
        gate,
    ) {
        Ok(fronts) => fronts_page(alloc, &fronts),
        Err(FrontsRefusal::BoundBelow { bound, peak }) => bound_page(alloc, bound, peak),
        Err(FrontsRefusal::NoMemory) => Err(AllocError),
    }
}

/// The rows of the fronts, with the rounds in which they were made, or the bound that is below their peak. `rt` and `gate` are for the
/// threads of the fronts.
pub fn report_fronts<R: Threads + Sync, F: Files, G: Gate>(
    rt: &R,
    alloc: Global,
    files: &mut F,
    asked: FrontRun<'_>,
    gate: &G,
) -> Result<Page, Stop>
    requires { AreWorkers asked.workers }
    ensures told { IsReported (F.bytes_of files.old) (F.faults_of files.old) (F.faults_of files.new)
        (making (ordered_matrix_view asked.entry.matrix) asked.entry.bound asked.entry.workers) result }
    ensures same { (other : List ℕ) → F.bytes_of files.new other ≡ F.bytes_of files.old other }
    ensures later { (other : List ℕ) → F.faults_of files.old other ≤ F.faults_of files.new other }
{
    let read = judge_pattern(alloc, files, asked.matrix)?;
    Ok(made_page(rt, alloc, &read, asked.bound, asked.workers, gate)?)
}

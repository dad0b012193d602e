//! `reduce`: the term of a task graph, as a workflow file with the names of its tasks; or why the graph has none.

ghost use Rattle.std.specs.Prelude.{◌≡◌, ◌≤◌, ◌++◌, ℕ, List, IfOk, OnOk, IsTrue, map};
ghost use Rattle.mp_text.specs.Report.{is_line_start, is_token, text_of_lines};
ghost use Rattle.reports.specs.Reduce.{arc_line, arcs_answer, reduced_answer};
ghost use Rattle.reports.specs.Reduce.{IsReduceAnswer, IsRefusalAnswer, IsItemsReduceAnswer, IsEitherReduceAnswer};
ghost use Rattle.reports.specs.Reported.{IsReported};
ghost use Rattle.judging.specs.Pages.{answer_of};
ghost use Rattle.requests.specs.Request.{reduce as reducing};

use graphs::Graph;
use judging::{EitherGraphFile, Page, PageKind, Stop, judge, line_page, print_end};
use mp_outside::Files;
use mp_text::Report;
use mp_text::Token::{Number, Word};
use mp_text::laws::printed_lines;
use shared_graph_files::EitherGraph;
use shared_reduce::{SharedReduceRefusal, reduce_shared};
use shared_systems::SharedSystem;
use sp_reduce::{ReduceRefusal, Reduced, reduce};
use std::alloc::{AllocError, Global};
use workflow_files::print_named;

// ---- the report

// A workflow file, and `# K NAME` for each task K of it.
fn term_page(alloc: Global, reduced: &Reduced) -> Result<Page, AllocError>
    ensures { IfOk result (λ page. answer_of page ≡ reduced_answer reduced.now.terms reduced.now.names.items) }
{
    let mut report = Report::new(alloc);
    print_named(&reduced.terms, &reduced.names, &mut report)?;
    let kind = PageKind::Done;
    Ok(Page { kind, report })
}

// `FROM TO` for each arc.
fn print_arcs(arcs: &[(u32, u32)], report: &mut Report) -> Result<(), AllocError>
    requires { IsTrue (is_line_start report.old) }
    ensures start { OnOk result (IsTrue (is_line_start report.new)) }
    ensures text { OnOk result (report.new ≡ report.old ++ text_of_lines (map arc_line arcs.now)) }
{
    printed_lines();
    for arc in arcs {
        let (from, to) = *arc;
        report.line(&[Number(u64::from(from)), Number(u64::from(to))])?;
    }
    Ok(())
}

/// `refused graph KIND K`, the arcs, `end`
pub(crate) fn arcs_page(alloc: Global, kind: &str, arcs: &[(u32, u32)]) -> Result<Page, AllocError>
    requires { IsTrue (is_token kind.now) }
    ensures { IfOk result (λ page. answer_of page ≡ arcs_answer kind.now arcs.now) }
{
    printed_lines();
    let mut report = Report::new(alloc);
    let (refused, graph) = (Word("refused"), Word("graph"));
    report.line(&[refused, graph, Word(kind), Number(arcs.len() as u64)])?;
    print_arcs(arcs, &mut report)?;
    print_end(&mut report)?;
    let kind = PageKind::NotSeriesParallel;
    Ok(Page { kind, report })
}

// The term, or the rest.
fn graph_page(alloc: Global, graph: &Graph) -> Result<Page, AllocError>
    ensures { IfOk result (λ page. IsReduceAnswer graph.now (answer_of page)) }
{
    match reduce(alloc, graph) {
        Ok(reduced) => {
            reduced.terms.keeps();
            term_page(alloc, &reduced)
        }
        Err(ReduceRefusal::Rest(arcs)) => arcs_page(alloc, "rest", &arcs),
        Err(ReduceRefusal::NoMemory) => Err(AllocError),
    }
}

// `refused graph item I`
fn item_page(alloc: Global, item: u32) -> Result<Page, AllocError>
    ensures { IfOk result (λ page. IsRefusalAnswer (SharedReduceRefusal.Item item) (answer_of page)) }
{
    let (refused, graph) = (Word("refused"), Word("graph"));
    let words = [refused, graph, Word("item"), Number(u64::from(item))];
    line_page(alloc, PageKind::NotSeriesParallel, &words)
}

// `refused graph arcs`
fn too_many_page(alloc: Global) -> Result<Page, AllocError>
    ensures { IfOk result (λ page. IsRefusalAnswer SharedReduceRefusal.Arcs (answer_of page)) }
{
    let words = [Word("refused"), Word("graph"), Word("arcs")];
    line_page(alloc, PageKind::NotSeriesParallel, &words)
}

/// Why a graph of version 2 has no term.
pub(crate) fn refusal_page(alloc: Global, refusal: &SharedReduceRefusal) -> Result<Page, AllocError>
    ensures { IfOk result (λ page. IsRefusalAnswer refusal.now (answer_of page)) }
{
    match refusal {
        SharedReduceRefusal::Uses(arcs) => arcs_page(alloc, "uses", arcs),
        SharedReduceRefusal::Item(item) => item_page(alloc, *item),
        SharedReduceRefusal::Rest(arcs) => arcs_page(alloc, "rest", arcs),
        SharedReduceRefusal::Arcs => too_many_page(alloc),
        SharedReduceRefusal::NoMemory => Err(AllocError),
    }
}

// The term of a graph of version 2, or why it has none.
fn items_page(alloc: Global, system: &SharedSystem) -> Result<Page, AllocError>
    ensures { IfOk result (λ page. IsItemsReduceAnswer system.now (answer_of page)) }
{
    match reduce_shared(alloc, system) {
        Ok(reduced) => {
            reduced.terms.keeps();
            term_page(alloc, &reduced)
        }
        Err(refusal) => refusal_page(alloc, &refusal),
    }
}

// The same of a graph of either version.
fn either_page(alloc: Global, stated: &EitherGraph) -> Result<Page, AllocError>
    ensures { IfOk result (λ page. IsEitherReduceAnswer stated.now (answer_of page)) }
{
    match stated {
        EitherGraph::Arcs(graph) => graph_page(alloc, graph),
        EitherGraph::Items(system) => items_page(alloc, system),
    }
}

/// The term of the graph, or why it has none.
pub fn report_reduce<F: Files>(alloc: Global, files: &mut F, name: &str) -> Result<Page, Stop>
    ensures told { IsReported (F.bytes_of files.old) (F.faults_of files.old) (F.faults_of files.new) (reducing name.now) result }
    ensures same { (other : List ℕ) → F.bytes_of files.new other ≡ F.bytes_of files.old other }
    ensures later { (other : List ℕ) → F.faults_of files.old other ≤ F.faults_of files.new other }
{
    let stated = judge(alloc, files, name, &EitherGraphFile)?;
    Ok(either_page(alloc, &stated)?)
}

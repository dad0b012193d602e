//! `reduce` with an order: an order of the tasks of the term of a graph, by the tasks of the graph, with its peak there. Or why the graph
//! has no term.

ghost use Rattle.std.specs.Prelude.{◌≡◌, ◌≤◌, ℕ, List, IfOk, length};
ghost use Rattle.mp_system.specs.Renaming.{name_in};
ghost use Rattle.mp_system.specs.Traversal.{IsTraversal};
ghost use Rattle.sp_terms.specs.SystemOfTerm.{system_of_term};
ghost use Rattle.sp_terms.specs.Values.{term_of};
ghost use Rattle.shared_systems.specs.SharedMemory.{shared_peak_of};
ghost use Rattle.shared_systems.specs.SharedTraversal.{IsSharedTraversal};
ghost use Rattle.shared_reduce.specs.SharedTerm.{told};
ghost use Rattle.reports.specs.Carry.{IsCarriedAnswer, IsArcsCarryAnswer, IsItemsCarryAnswer, IsEitherCarryAnswer};
ghost use Rattle.reports.specs.Post.{post_answer};
ghost use Rattle.reports.specs.Reported.{IsReported};
ghost use Rattle.judging.specs.Pages.{answer_of};
ghost use Rattle.requests.specs.Request.{carrying};
ghost use Rattle.requests.specs.RequestViews.{source_view};

use crate::commands::post::post_page;
use crate::commands::reduce::{arcs_page, refusal_page};
use graphs::Graph;
use judging::{EitherGraphFile, Page, Stop, judge, judge_order, order_page};
use mp_outside::Files;
use mp_system::{ReplayRefusal, replay};
use requests::Carried;
use shared_graph_files::EitherGraph;
use shared_reduce::laws::told_term_law;
use shared_reduce::reduce_shared;
use shared_systems::SharedSystem;
use shared_systems::laws::one_reader_law;
use sp_reduce::laws::named_term_law;
use sp_reduce::{ReduceRefusal, Reduced, reduce};
use sp_terms::system_of;
use std::alloc::{AllocError, Global};

// ---- the order of the graph

// Which task of the graph a task of the term is; a number that is no task's is 0.
fn name_in(names: &[u32], task: u32) -> u32
    ensures { result ≡ name_in names.now task }
{
    if task == 0 {
        return 0;
    }
    match names.get(task as usize - 1) {
        Some(name) => *name,
        None => 0,
    }
}

// The order of the graph's tasks that an order of the term's tells. Joins have greater names than tasks.
fn told_order(
    alloc: Global,
    tasks: usize,
    names: &[u32],
    order: &[u32],
) -> Result<Vec<u32>, AllocError>
    ensures { IfOk result (λ named. named.items ≡ told tasks names.now order.now) }
{
    let mut named = Vec::with_capacity(alloc, tasks)?;
    for task in order {
        let name = name_in(names, *task);
        if name as usize <= tasks {
            named.push(name)?;
        }
    }
    Ok(named)
}

// ---- the report

// An order of the graph's tasks, with its peak.
fn told_page(alloc: Global, system: &SharedSystem, order: &[u32]) -> Result<Page, AllocError>
    requires { IsSharedTraversal system.now order.now }
    ensures { IfOk result (λ page. answer_of page ≡ post_answer (shared_peak_of system.now order.now) order.now) }
{
    match system.peak(alloc, order) {
        Ok(peak) => post_page(alloc, peak, order),
        Err(ReplayRefusal::NoMemory) => Err(AllocError),
        Err(ReplayRefusal::Order(_)) => unreachable!(),
    }
}

// The order that an order of the term's tasks tells, or the first place at which that is none.
fn term_page(
    alloc: Global,
    system: &SharedSystem,
    reduced: &Reduced,
    order: &[u32],
) -> Result<Page, AllocError>
    requires { IsTraversal (system_of_term (term_of reduced.now.terms)) order.now →
        IsSharedTraversal system.now (told (length system.now.tasks) reduced.now.names.items order.now) }
    ensures { IfOk result (λ page. IsCarriedAnswer (term_of reduced.now.terms)
        (told (length system.now.tasks) reduced.now.names.items) system.now order.now (answer_of page)) }
{
    let of_term = system_of(alloc, &reduced.terms)?;
    match replay(alloc, &of_term, order) {
        Ok(_) => {
            let tasks = system.tasks().len();
            let named = told_order(alloc, tasks, &reduced.names, order)?;
            told_page(alloc, system, &named)
        }
        Err(ReplayRefusal::Order(fault)) => order_page(alloc, fault),
        Err(ReplayRefusal::NoMemory) => Err(AllocError),
    }
}

// Of a graph of version 1; or why it has no term.
fn graph_page(alloc: Global, graph: &Graph, order: &[u32]) -> Result<Page, AllocError>
    ensures { IfOk result (λ page. IsArcsCarryAnswer graph.now order.now (answer_of page)) }
{
    named_term_law();
    one_reader_law();
    match reduce(alloc, graph) {
        Ok(reduced) => {
            reduced.terms.keeps();
            let system = SharedSystem::of_graph(alloc, graph)?;
            term_page(alloc, &system, &reduced, order)
        }
        Err(ReduceRefusal::Rest(arcs)) => arcs_page(alloc, "rest", &arcs),
        Err(ReduceRefusal::NoMemory) => Err(AllocError),
    }
}

// Of one of version 2.
fn items_page(alloc: Global, system: &SharedSystem, order: &[u32]) -> Result<Page, AllocError>
    ensures { IfOk result (λ page. IsItemsCarryAnswer system.now order.now (answer_of page)) }
{
    told_term_law();
    system.keeps();
    match reduce_shared(alloc, system) {
        Ok(reduced) => {
            reduced.terms.keeps();
            term_page(alloc, system, &reduced, order)
        }
        Err(refusal) => refusal_page(alloc, &refusal),
    }
}

// The same of a graph of either version.
fn either_page(alloc: Global, stated: &EitherGraph, order: &[u32]) -> Result<Page, AllocError>
    ensures { IfOk result (λ page. IsEitherCarryAnswer stated.now order.now (answer_of page)) }
{
    match stated {
        EitherGraph::Arcs(graph) => graph_page(alloc, graph, order),
        EitherGraph::Items(system) => items_page(alloc, system, order),
    }
}

/// The order by the tasks of the graph, with its peak; or the first place at which it is no order of the term's tasks, or why there is no
/// term.
pub fn report_carry<F: Files>(
    alloc: Global,
    files: &mut F,
    asked: Carried<'_>,
) -> Result<Page, Stop>
    ensures told { IsReported (F.bytes_of files.old) (F.faults_of files.old) (F.faults_of files.new)
        (carrying asked.entry.graph.now (source_view asked.entry.source)) result }
    ensures same { (other : List ℕ) → F.bytes_of files.new other ≡ F.bytes_of files.old other }
    ensures later { (other : List ℕ) → F.faults_of files.old other ≤ F.faults_of files.new other }
{
    let stated = judge(alloc, files, asked.graph, &EitherGraphFile)?;
    let order = judge_order(alloc, files, asked.source)?;
    Ok(either_page(alloc, &stated, order.numbers())?)
}

//! `upgrade`: a tree, a workflow, a task graph or a plan, written as version 2.

ghost use Rattle.std.specs.Prelude.{◌≡◌, ◌≤◌, ℕ, List, [], IfOk, option_map};
ghost use Rattle.reports.specs.Upgrade.{IsUpgradedFrom, tree_value, workflow_value, graph_value, plan_value, upgrade_answer};
ghost use Rattle.judging.specs.Files.{IsFirstRefusal};
ghost use Rattle.judging.specs.Judged.{AreJudged};
ghost use Rattle.reports.specs.Reported.{IsReported};
ghost use Rattle.judging.specs.Pages.{answer_of};
ghost use Rattle.requests.specs.Request.{upgrade, plan_upgrade, upgrade_files};
ghost use Rattle.requests.specs.RequestViews.{upgrade_view};

use judging::{
    Page, PageKind, PlanFile, Priority, SharedGraphFile, Stop, TreeFile, WorkflowFile, judge,
    judge_priority,
};
use mp_outside::Files;
use mp_text::Report;
use plan_files::print_plan_2;
use plans::Plan;
use requests::Upgrade;
use shared_graph_files::print_shared_graph;
use shared_systems::SharedSystem;
use sp_terms::TermList;
use std::alloc::{AllocError, Global};
use tree_files::print_tree_2;
use trees::Tree;
use workflow_files::print_workflow_2;

// ---- the files

fn tree_2_page(alloc: Global, tree: &Tree) -> Result<Page, AllocError>
    ensures { IfOk result (λ page. answer_of page ≡ upgrade_answer (tree_value tree.now)) }
{
    let mut report = Report::new(alloc);
    print_tree_2(tree, &mut report)?;
    let kind = PageKind::Done;
    Ok(Page { kind, report })
}

fn workflow_2_page(alloc: Global, terms: &TermList) -> Result<Page, AllocError>
    ensures { IfOk result (λ page. answer_of page ≡ upgrade_answer (workflow_value terms.now)) }
{
    let mut report = Report::new(alloc);
    print_workflow_2(terms, &mut report)?;
    let kind = PageKind::Done;
    Ok(Page { kind, report })
}

fn graph_2_page(alloc: Global, system: &SharedSystem) -> Result<Page, AllocError>
    ensures { IfOk result (λ page. answer_of page ≡ upgrade_answer (graph_value system.now)) }
{
    let mut report = Report::new(alloc);
    print_shared_graph(system, &mut report)?;
    let kind = PageKind::Done;
    Ok(Page { kind, report })
}

fn plan_2_page(alloc: Global, plan: &Plan) -> Result<Page, AllocError>
    ensures { IfOk result (λ page. answer_of page ≡ upgrade_answer (plan_value plan.now)) }
{
    let mut report = Report::new(alloc);
    print_plan_2(plan, &mut report)?;
    let kind = PageKind::Done;
    Ok(Page { kind, report })
}

// ---- the plan

// The plan of a file; with the priority of another, where one is named.
fn judge_plan<F: Files>(
    alloc: Global,
    files: &mut F,
    name: &str,
    priority: Option<&str>,
) -> Result<Plan, Stop>
    ensures judged { let asked = plan_upgrade name.now (option_map (λ s. s.now) priority.entry) in
        AreJudged (F.bytes_of files.old) (F.faults_of files.old) (F.faults_of files.new) (upgrade_files asked)
        (λ texts plan. IsUpgradedFrom asked texts (plan_value plan)) (IsFirstRefusal (upgrade_files asked) []) result }
    ensures same { (other : List ℕ) → F.bytes_of files.new other ≡ F.bytes_of files.old other }
    ensures later { (other : List ℕ) → F.faults_of files.old other ≤ F.faults_of files.new other }
{
    let plan = judge(alloc, files, name, &PlanFile)?;
    let count = plan.order().len() as u32;
    match judge_priority(alloc, files, priority, count)? {
        Priority::Own => Ok(plan),
        Priority::Given(numbers) => Ok(plan.with_priority(numbers)),
    }
}

/// The file, as version 2.
pub fn report_upgrade<F: Files>(
    alloc: Global,
    files: &mut F,
    asked: Upgrade<'_>,
) -> Result<Page, Stop>
    ensures told { IsReported (F.bytes_of files.old) (F.faults_of files.old) (F.faults_of files.new)
        (upgrade (upgrade_view asked.entry)) result }
    ensures same { (other : List ℕ) → F.bytes_of files.new other ≡ F.bytes_of files.old other }
    ensures later { (other : List ℕ) → F.faults_of files.old other ≤ F.faults_of files.new other }
{
    match asked {
        Upgrade::Tree(name) => {
            let tree = judge(alloc, files, name, &TreeFile)?;
            Ok(tree_2_page(alloc, &tree)?)
        }
        Upgrade::Workflow(name) => {
            let terms = judge(alloc, files, name, &WorkflowFile)?;
            Ok(workflow_2_page(alloc, &terms)?)
        }
        Upgrade::Graph(name) => {
            let system = judge(alloc, files, name, &SharedGraphFile)?;
            Ok(graph_2_page(alloc, &system)?)
        }
        Upgrade::Plan(name, priority) => {
            let plan = judge_plan(alloc, files, name, priority)?;
            Ok(plan_2_page(alloc, &plan)?)
        }
    }
}

//! `fence` of tasks within a bound: fences along an order that is planned.

ghost use Rattle.std.specs.Prelude.{◌≡◌, ◌≤◌, ℕ, List, IfOk, IfSome};
ghost use Rattle.reports.specs.PlannedFence.{IsPlannedFenceAnswer};
ghost use Rattle.reports.specs.Reported.{IsReported};
ghost use Rattle.judging.specs.Judged.{system_of_tasks};
ghost use Rattle.judging.specs.Pages.{answer_of};
ghost use Rattle.requests.specs.Request.{AreWorkers, planned_fencing};
ghost use Rattle.requests.specs.RequestViews.{planned_fencing_view, tasks_view};

use crate::commands::fence::system_page;
use graph_plan::plan_graph;
use judging::{Page, Stop, Tasks, judge_tasks};
use mp_outside::Files;
use requests::{DEFAULT_EFFORT, PlannedFencing};
use shared_systems::SharedSystem;
use std::alloc::{AllocError, Global};

// The file of fences for a system along the order of its plan, or why there is none.
fn own_page(
    alloc: Global,
    system: &SharedSystem,
    bound: u64,
    workers: Option<u32>,
    fewest: bool,
) -> Result<Page, AllocError>
    requires { IfSome workers AreWorkers }
    ensures { IfOk result (λ page. IsPlannedFenceAnswer system.now (record { bound = bound; workers = workers; fewest = fewest }) (answer_of page)) }
{
    let plan = plan_graph(alloc, system, DEFAULT_EFFORT)?;
    system_page(alloc, system, plan.order(), bound, workers, fewest)
}

// The same of tasks.
fn planned_page(
    alloc: Global,
    tasks: Tasks,
    bound: u64,
    workers: Option<u32>,
    fewest: bool,
) -> Result<Page, AllocError>
    requires { IfSome workers AreWorkers }
    ensures { IfOk result (λ page. IsPlannedFenceAnswer (system_of_tasks tasks) (record { bound = bound; workers = workers; fewest = fewest }) (answer_of page)) }
{
    let system = tasks.into_shared(alloc)?;
    own_page(alloc, &system, bound, workers, fewest)
}

/// The file of fences along the order of a plan, with the amounts that certify the bound, or why there is none: above all that the bound is below
/// the peak of the plan.
pub fn report_planned_fence<F: Files>(
    alloc: Global,
    files: &mut F,
    asked: PlannedFencing<'_>,
) -> Result<Page, Stop>
    requires { IfSome asked.workers AreWorkers }
    ensures told { IsReported (F.bytes_of files.old) (F.faults_of files.old) (F.faults_of files.new)
        (planned_fencing (tasks_view asked.entry.tasks) (planned_fencing_view asked.entry)) result }
    ensures same { (other : List ℕ) → F.bytes_of files.new other ≡ F.bytes_of files.old other }
    ensures later { (other : List ℕ) → F.faults_of files.old other ≤ F.faults_of files.new other }
{
    let read = judge_tasks(alloc, files, asked.tasks)?;
    Ok(planned_page(alloc, read, asked.bound, asked.workers, asked.fewest)?)
}

//! The commands, each with what it asks for, what it reads, what it answers and how that is printed.

pub mod bound;
pub mod carry;
pub mod check;
pub mod check_fences;
pub mod check_graph;
pub mod columns;
pub mod demo;
pub mod fence;
pub mod fronts;
pub mod gap_report;
pub mod plan;
pub mod plan_graph;
pub mod planned_fence;
pub mod post;
pub mod reduce;
pub mod replay;
pub mod segments;
pub mod simulate;
pub mod spill;
pub mod standing;
pub mod tree;
pub mod upgrade;

ghost use Rattle.std.specs.Prelude.{◌≡◌, ◌≤◌, ℕ, List};
ghost use Rattle.reports.specs.Reported.{IsReported};
ghost use Rattle.requests.specs.Request.{IsInRange};
ghost use Rattle.requests.specs.RequestViews.{request_view};

use judging::{Page, Stop};
use mp_outside::{Files, Gate};
use requests::Request;
use std::alloc::Global;
use std::thread::Threads;

/// The page of the report that a request asks for. `rt` and `gate` are for the threads of the checker
/// and of the fronts.
pub fn report<R: Threads + Sync, F: Files, G: Gate>(
    rt: &R,
    alloc: Global,
    files: &mut F,
    request: Request<'_>,
    gate: &G,
) -> Result<Page, Stop>
    requires { IsInRange (request_view request) }
    ensures told { IsReported (F.bytes_of files.old) (F.faults_of files.old) (F.faults_of files.new) (request_view request.entry) result }
    ensures same { (other : List ℕ) → F.bytes_of files.new other ≡ F.bytes_of files.old other }
    ensures later { (other : List ℕ) → F.faults_of files.old other ≤ F.faults_of files.new other }
{
    match request {
        Request::Replay(asked) => replay::report_replay(alloc, files, asked),
        Request::Tree(matrix) => tree::report_tree(alloc, files, matrix),
        Request::Columns(asked) => columns::report_columns(alloc, files, asked),
        Request::Post(input) => post::report_post(alloc, files, input),
        Request::Check(asked) => check::report_check(rt, alloc, files, asked, gate),
        Request::CheckGraph(asked) => {
            check_graph::report_check_graph(rt, alloc, files, asked, gate)
        }
        Request::CheckFences(asked) => check_fences::report_check_fences(alloc, files, asked),
        Request::Plan(input, format) => plan::report_plan(alloc, files, input, format),
        Request::PlanGraph(asked) => plan_graph::report_plan_graph(alloc, files, asked),
        Request::Simulate(asked) => simulate::report_simulate(alloc, files, asked),
        Request::Fence(asked) => fence::report_fence(alloc, files, asked),
        Request::PlannedFence(asked) => planned_fence::report_planned_fence(alloc, files, asked),
        Request::Standing(tasks, workers) => {
            standing::report_standing(alloc, files, tasks, workers)
        }
        Request::Demo(made) => Ok(demo::report_demo(rt, alloc, made, gate)?),
        Request::Upgrade(asked) => upgrade::report_upgrade(alloc, files, asked),
        Request::Spill(asked) => spill::report_spill(alloc, files, asked),
        Request::Segments(input) => segments::report_segments(alloc, files, input),
        Request::Fronts(asked) => fronts::report_fronts(rt, alloc, files, asked, gate),
        Request::Reduce(name) => reduce::report_reduce(alloc, files, name),
        Request::Carry(asked) => carry::report_carry(alloc, files, asked),
        Request::Bound(asked) => bound::report_bound(alloc, files, asked),
    }
}

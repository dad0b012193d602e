//! `replay`: the peak of an order of tasks.

ghost use Rattle.std.specs.Prelude.{◌≡◌, ◌≤◌, ℕ, List, IfOk};
ghost use Rattle.reports.specs.Replay.{IsReplayAnswer};
ghost use Rattle.reports.specs.Reported.{IsReported};
ghost use Rattle.judging.specs.Judged.{system_of_tasks};
ghost use Rattle.judging.specs.Pages.{answer_of};
ghost use Rattle.requests.specs.Request.{replay};
ghost use Rattle.requests.specs.RequestViews.{tasks_view, source_view};

use judging::{Page, PageKind, Stop, Tasks, judge_ordered_tasks, line_page, order_page};
use mp_outside::Files;
use mp_system::ReplayRefusal;
use mp_text::Token::{Number, Word};
use requests::Replay;
use std::alloc::{AllocError, Global};

// `peak PEAK`, or where the order is no traversal.
fn replay_page(alloc: Global, tasks: &Tasks, order: &[u32]) -> Result<Page, AllocError>
    ensures { IfOk result (λ page. IsReplayAnswer (system_of_tasks tasks.now) order.now (answer_of page)) }
{
    match tasks.replay(alloc, order) {
        Ok(peak) => line_page(alloc, PageKind::Done, &[Word("peak"), Number(peak)]),
        Err(ReplayRefusal::Order(fault)) => order_page(alloc, fault),
        Err(ReplayRefusal::NoMemory) => Err(AllocError),
    }
}

/// The peak of the order, or its first fault.
pub fn report_replay<F: Files>(
    alloc: Global,
    files: &mut F,
    asked: Replay<'_>,
) -> Result<Page, Stop>
    ensures told { IsReported (F.bytes_of files.old) (F.faults_of files.old) (F.faults_of files.new)
        (replay (tasks_view asked.entry.tasks) (source_view asked.entry.source)) result }
    ensures same { (other : List ℕ) → F.bytes_of files.new other ≡ F.bytes_of files.old other }
    ensures later { (other : List ℕ) → F.faults_of files.old other ≤ F.faults_of files.new other }
{
    let ordered = judge_ordered_tasks(alloc, files, asked.tasks, asked.source)?;
    Ok(replay_page(alloc, &ordered.tasks, ordered.order.numbers())?)
}

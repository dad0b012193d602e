//! `simulate`: the run of tasks on several workers under a bound on memory.

ghost use Rattle.std.specs.Prelude.{◌≡◌, ◌≤◌, ◌++◌, ℕ, List, IfOk, OnOk, IsTrue, length, map};
ghost use Rattle.activation.specs.Schedule.{HoldsEach};
ghost use Rattle.shared_systems.specs.SharedTraversal.{IsSharedTraversal};
ghost use Rattle.mp_text.specs.Report.{is_token, is_line_start, line_text, text_of_lines};
ghost use Rattle.reports.specs.Simulate.{IsSimulation, event_word as event_text, event_line, report_lines};
ghost use Rattle.judging.specs.Judged.{IsRanking, priority_beside, order_tasks, system_of_tasks};
ghost use Rattle.reports.specs.Reported.{IsReported};
ghost use Rattle.judging.specs.Pages.{answer_of};
ghost use Rattle.requests.specs.Request.{AreWorkers, simulate as simulation};
ghost use Rattle.requests.specs.RequestViews.{tasks_view, source_view, simulation_view};
ghost use Rattle.judging.specs.declared.status.Status.TheVariants.{Done};

use activation::{CoreRefusal, Event, EventKind, Simulator, Trace};
use judging::{
    OrderedTasks, Page, PageKind, Priority, Stop, bound_page, judge_ordered_tasks, judge_priority,
    order_page, print_count, print_end,
};
use mp_outside::Files;
use mp_text::Report;
use mp_text::Token::{Number, Word};
use mp_text::laws::printed_lines;
use requests::Simulation;
use std::alloc::{AllocError, Global};

// ---- the report

fn event_word(kind: EventKind) -> &'static str
    ensures word { result.now ≡ event_text kind }
    ensures token { IsTrue (is_token result.now) }
{
    match kind {
        EventKind::Activate => "activate",
        EventKind::Start => "start",
        EventKind::Finish => "finish",
    }
}

fn print_event(event: Event, report: &mut Report) -> Result<(), AllocError>
    requires { IsTrue (is_line_start report.old) }
    ensures start { OnOk result (IsTrue (is_line_start report.new)) }
    ensures text { OnOk result (report.new ≡ report.old ++ line_text (event_line event)) }
{
    let task = Number(u64::from(event.task));
    report.line(&[Number(event.time), Word(event_word(event.kind)), task])
}

fn print_events(events: &[Event], report: &mut Report) -> Result<(), AllocError>
    requires { IsTrue (is_line_start report.old) }
    ensures start { OnOk result (IsTrue (is_line_start report.new)) }
    ensures text { OnOk result (report.new ≡ report.old ++ text_of_lines (map event_line events.now)) }
{
    printed_lines();
    for event in events {
        print_event(*event, report)?;
    }
    Ok(())
}

// `makespan T`, `used U`, `booked B`, `events E`, the events, `end`
fn trace_page(alloc: Global, trace: &Trace) -> Result<Page, AllocError>
    ensures { IfOk result (λ page. answer_of page ≡ record {
      status = Done;
      text = text_of_lines (report_lines trace.now.makespan trace.now.used trace.now.booked trace.now.events.items);
    }) }
{
    printed_lines();
    let mut report = Report::new(alloc);
    print_count("makespan", trace.makespan, &mut report)?;
    print_count("used", trace.used, &mut report)?;
    print_count("booked", trace.booked, &mut report)?;
    print_count("events", trace.events.len() as u64, &mut report)?;
    print_events(&trace.events, &mut report)?;
    print_end(&mut report)?;
    let kind = PageKind::Done;
    Ok(Page { kind, report })
}

// ---- the run

// The priority of a run of these tasks, each of which stands in it once.
fn chosen<'a>(ordered: &'a OrderedTasks, priority: &'a Priority) -> &'a [u32]
    requires { IsRanking (length (system_of_tasks ordered.now.tasks).tasks) priority.now }
    ensures value { result.now ≡ priority_beside ordered.now.order priority.now }
    ensures each { IsSharedTraversal (system_of_tasks ordered.now.tasks) (order_tasks ordered.now.order) →
        HoldsEach (system_of_tasks ordered.now.tasks) result.now }
{
    match priority {
        Priority::Own => ordered.order.priority(),
        Priority::Given(numbers) => numbers,
    }
}

// The page of a run: its events, or why there is none.
fn simulation_page(
    alloc: Global,
    ordered: &OrderedTasks,
    priority: &[u32],
    bound: u64,
    workers: u32,
) -> Result<Page, AllocError>
    requires workers { AreWorkers workers }
    requires priority { IsSharedTraversal (system_of_tasks ordered.now.tasks) (order_tasks ordered.now.order) →
        HoldsEach (system_of_tasks ordered.now.tasks) priority.now }
    ensures { IfOk result (λ page. IsSimulation
        (record { system = system_of_tasks ordered.now.tasks; order = order_tasks ordered.now.order; bound = bound; workers = workers })
        priority.now (answer_of page)) }
{
    let order = ordered.order.numbers();
    match ordered.tasks.core(alloc, order, bound, workers) {
        Ok(core) => {
            let simulator = Simulator::new(alloc, core)?;
            trace_page(alloc, &simulator.run(priority))
        }
        Err(CoreRefusal::Order(fault)) => order_page(alloc, fault),
        Err(CoreRefusal::BoundBelow { bound, peak }) => bound_page(alloc, bound, peak),
        Err(CoreRefusal::NoMemory) => Err(AllocError),
    }
}

/// The events of the run, or why there is none.
pub fn report_simulate<F: Files>(
    alloc: Global,
    files: &mut F,
    asked: Simulation<'_>,
) -> Result<Page, Stop>
    requires { AreWorkers asked.workers }
    ensures told { IsReported (F.bytes_of files.old) (F.faults_of files.old) (F.faults_of files.new)
        (simulation (tasks_view asked.entry.tasks) (source_view asked.entry.source) (simulation_view asked.entry)) result }
    ensures same { (other : List ℕ) → F.bytes_of files.new other ≡ F.bytes_of files.old other }
    ensures later { (other : List ℕ) → F.faults_of files.old other ≤ F.faults_of files.new other }
{
    let ordered = judge_ordered_tasks(alloc, files, asked.tasks, asked.source)?;
    let count = ordered.tasks.count();
    let priority = judge_priority(alloc, files, asked.priority, count)?;
    let priority = chosen(&ordered, &priority);
    Ok(simulation_page(alloc, &ordered, priority, asked.bound, asked.workers)?)
}

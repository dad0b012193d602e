//! `fence`: fences that keep all runs of tasks within a bound, along an order of them.

ghost use Rattle.std.specs.Prelude.{◌≡◌, ◌≤◌, ℕ, List, IfOk, IfSome};
ghost use Rattle.fences.specs.Certificates.{Certifies};
ghost use Rattle.fence_files.specs.FenceFile.{ReadsFences};
ghost use Rattle.fence_files.specs.Printed.{fences_text};
ghost use Rattle.reports.specs.Fence.{IsFenceAnswer, fences_answer};
ghost use Rattle.reports.specs.Reported.{IsReported};
ghost use Rattle.judging.specs.Judged.{order_tasks, system_of_tasks};
ghost use Rattle.judging.specs.Pages.{answer_of};
ghost use Rattle.requests.specs.Request.{AreWorkers, fencing};
ghost use Rattle.requests.specs.RequestViews.{fencing_view, source_view, tasks_view};

use fence_files::laws::{certified_fences, printed_fences};
use fence_files::print_fences;
use fences::FenceCertificate;
use fencing::{CertifyingRefusal, certificate_along};
use judging::{
    OrderedTasks, Page, PageKind, Stop, bound_page, judge_ordered_tasks, limit_page, order_page,
};
use limits::LimitName;
use mp_outside::Files;
use mp_text::Report;
use requests::Fencing;
use shared_systems::SharedSystem;
use std::alloc::{AllocError, Global};

/// The file of fences.
pub fn certificate_page(alloc: Global, certificate: &FenceCertificate) -> Result<Page, AllocError>
    ensures { IfOk result (λ page. answer_of page ≡ fences_answer certificate.now) }
{
    let mut report = Report::new(alloc);
    print_fences(certificate, &mut report)?;
    let kind = PageKind::Done;
    Ok(Page { kind, report })
}

/// The file of fences for a system and an order of its tasks, or why there is none.
pub fn system_page(
    alloc: Global,
    system: &SharedSystem,
    order: &[u32],
    bound: u64,
    workers: Option<u32>,
    fewest: bool,
) -> Result<Page, AllocError>
    requires { IfSome workers AreWorkers }
    ensures { IfOk result (λ page. IsFenceAnswer system.now order.now (record { bound = bound; workers = workers; fewest = fewest }) (answer_of page)) }
{
    certified_fences();
    printed_fences();
    system.keeps();
    match certificate_along(alloc, system, order, bound, workers, fewest) {
        Ok(certificate) => certificate_page(alloc, &certificate),
        Err(CertifyingRefusal::Order(fault)) => order_page(alloc, fault),
        Err(CertifyingRefusal::Bound { peak }) => bound_page(alloc, bound, peak),
        Err(CertifyingRefusal::ManyJoins | CertifyingRefusal::ManyFences) => {
            limit_page(alloc, "fences", LimitName::Positions)
        }
        Err(CertifyingRefusal::NoMemory) => Err(AllocError),
    }
}

// The same of tasks and an order of them.
fn fence_page(
    alloc: Global,
    ordered: OrderedTasks,
    bound: u64,
    workers: Option<u32>,
    fewest: bool,
) -> Result<Page, AllocError>
    requires { IfSome workers AreWorkers }
    ensures { IfOk result (λ page. IsFenceAnswer (system_of_tasks ordered.tasks) (order_tasks ordered.order)
        (record { bound = bound; workers = workers; fewest = fewest }) (answer_of page)) }
{
    let OrderedTasks { tasks, order } = ordered;
    let system = tasks.into_shared(alloc)?;
    system_page(alloc, &system, order.numbers(), bound, workers, fewest)
}

/// The file of fences, with the amounts that certify the bound, or why there is none.
pub fn report_fence<F: Files>(
    alloc: Global,
    files: &mut F,
    asked: Fencing<'_>,
) -> Result<Page, Stop>
    requires { IfSome asked.workers AreWorkers }
    ensures told { IsReported (F.bytes_of files.old) (F.faults_of files.old) (F.faults_of files.new)
        (fencing (tasks_view asked.entry.tasks) (source_view asked.entry.source) (fencing_view asked.entry)) result }
    ensures same { (other : List ℕ) → F.bytes_of files.new other ≡ F.bytes_of files.old other }
    ensures later { (other : List ℕ) → F.faults_of files.old other ≤ F.faults_of files.new other }
{
    let ordered = judge_ordered_tasks(alloc, files, asked.tasks, asked.source)?;
    Ok(fence_page(alloc, ordered, asked.bound, asked.workers, asked.fewest)?)
}

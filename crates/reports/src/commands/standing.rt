//! `fence` of tasks as they stand: what no run of them passes, by fences that forbid no run.

ghost use Rattle.std.specs.Prelude.{◌≡◌, ◌≤◌, ℕ, List, IfOk, IfSome};
ghost use Rattle.fences.specs.Certificates.{Certifies};
ghost use Rattle.fence_files.specs.FenceFile.{ReadsFences};
ghost use Rattle.fence_files.specs.Printed.{fences_text};
ghost use Rattle.fencing.specs.Standing.{IsStanding};
ghost use Rattle.reports.specs.Standing.{IsStandingAnswer};
ghost use Rattle.reports.specs.Reported.{IsReported};
ghost use Rattle.judging.specs.Judged.{system_of_tasks};
ghost use Rattle.judging.specs.Pages.{answer_of};
ghost use Rattle.requests.specs.Request.{AreWorkers, standing};
ghost use Rattle.requests.specs.RequestViews.{tasks_view};

use crate::commands::fence::certificate_page;
use fence_files::laws::{certified_fences, printed_fences};
use fences::FenceCertificate;
use fencing::standing_certificate;
use judging::{Page, Stop, Tasks, judge_tasks, limit_page};
use limits::LimitName;
use mp_outside::Files;
use requests::TaskSource;
use shared_systems::SharedSystem;
use std::alloc::{AllocError, Global};

// The file of fences, whose bound is told.
fn told_page(
    alloc: Global,
    system: &SharedSystem,
    workers: Option<u32>,
    certificate: &FenceCertificate,
    bound: u64,
) -> Result<Page, AllocError>
    requires workers { IfSome workers AreWorkers }
    requires bound { certificate.now.bound ≡ bound }
    requires stands { IsStanding system.now workers certificate.now }
    ensures { IfOk result (λ page. IsStandingAnswer system.now workers (answer_of page)) }
{
    certified_fences();
    printed_fences();
    system.keeps();
    certificate_page(alloc, certificate)
}

// The file of fences for a system as it stands, or that its joins pass the limits.
fn system_page(
    alloc: Global,
    system: &SharedSystem,
    workers: Option<u32>,
) -> Result<Page, AllocError>
    requires { IfSome workers AreWorkers }
    ensures { IfOk result (λ page. IsStandingAnswer system.now workers (answer_of page)) }
{
    match standing_certificate(alloc, system, workers)? {
        Some(certificate) => told_page(alloc, system, workers, &certificate, certificate.bound),
        None => limit_page(alloc, "fences", LimitName::Positions),
    }
}

// The same of tasks.
fn standing_page(alloc: Global, tasks: Tasks, workers: Option<u32>) -> Result<Page, AllocError>
    requires { IfSome workers AreWorkers }
    ensures { IfOk result (λ page. IsStandingAnswer (system_of_tasks tasks) workers (answer_of page)) }
{
    let system = tasks.into_shared(alloc)?;
    system_page(alloc, &system, workers)
}

/// The file of fences that forbid no run, with the amounts that certify the bound, or that the joins of the system pass the limits.
pub fn report_standing<F: Files>(
    alloc: Global,
    files: &mut F,
    tasks: TaskSource<'_>,
    workers: Option<u32>,
) -> Result<Page, Stop>
    requires { IfSome workers AreWorkers }
    ensures told { IsReported (F.bytes_of files.old) (F.faults_of files.old) (F.faults_of files.new)
        (standing (tasks_view tasks.entry) workers) result }
    ensures same { (other : List ℕ) → F.bytes_of files.new other ≡ F.bytes_of files.old other }
    ensures later { (other : List ℕ) → F.faults_of files.old other ≤ F.faults_of files.new other }
{
    let read = judge_tasks(alloc, files, tasks)?;
    Ok(standing_page(alloc, read, workers)?)
}

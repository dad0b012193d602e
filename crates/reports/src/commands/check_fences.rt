//! `check` of fences: whether their amounts certify the bound.

ghost use Rattle.std.specs.Prelude.{◌≡◌, ◌≤◌, ℕ, List, IfOk, IsTrue};
ghost use Rattle.mp_text.specs.Report.{is_token};
ghost use Rattle.fences.specs.declared.certificate.CertificateRefusal.TheVariants.{Fences};
ghost use Rattle.reports.specs.CheckFences.{IsFenceCheck, IsOfFences, IsObjection, amount_word, fence_word, kept_answer, objection_answer};
ghost use Rattle.reports.specs.Reported.{IsReported};
ghost use Rattle.judging.specs.Judged.{system_of_tasks};
ghost use Rattle.judging.specs.Pages.{answer_of};
ghost use Rattle.requests.specs.Request.{check_fences};
ghost use Rattle.requests.specs.RequestViews.{tasks_view};

use fences::{
    AmountTest, CertificateRefusal, FenceCertificate, FenceTest, FencesRefusal, judge_certificate,
};
use judging::{FencesFile, Page, PageKind, Stop, Tasks, judge, judge_tasks, line_page};
use mp_outside::Files;
use mp_text::Token::{Number, Word};
use requests::FenceCheck;
use shared_systems::SharedSystem;
use std::alloc::{AllocError, Global};

// The word for a test of a fence.
fn fence_word(test: FenceTest) -> &'static str
    ensures word { result.now ≡ fence_word test }
    ensures token { IsTrue (is_token result.now) }
{
    match test {
        FenceTest::Tasks => "tasks",
        FenceTest::Apart => "apart",
    }
}

// The word for a test of an amount.
fn amount_word(test: AmountTest) -> &'static str
    ensures word { result.now ≡ amount_word test }
    ensures token { IsTrue (is_token result.now) }
{
    match test {
        AmountTest::Size => "size",
        AmountTest::Limit => "limit",
    }
}

// The line of what is said against fences and amounts.
fn fences_page(alloc: Global, refusal: FencesRefusal) -> Result<Page, AllocError>
    ensures { IfOk result (λ page. IsOfFences refusal × (answer_of page ≡ objection_answer (Fences refusal))) }
{
    let (no, kind) = (Word("no"), PageKind::No);
    let (fences, amounts) = (Word("fences"), Word("amounts"));
    match refusal {
        FencesRefusal::ManyFences => line_page(alloc, kind, &[no, fences, Word("many")]),
        FencesRefusal::Fence { test, fence } => {
            let fence = Number(u64::from(fence));
            let words = [no, Word("fence"), fence, Word(fence_word(test))];
            line_page(alloc, kind, &words)
        }
        FencesRefusal::OwnInput(item) => {
            let words = [no, Word("item"), Number(u64::from(item)), Word("own")];
            line_page(alloc, kind, &words)
        }
        FencesRefusal::Cycle(task) => {
            let words = [no, fences, Word("cycle"), Number(u64::from(task))];
            line_page(alloc, kind, &words)
        }
        FencesRefusal::Length => line_page(alloc, kind, &[no, amounts, Word("count")]),
        FencesRefusal::Item { test, item } => {
            let item = Number(u64::from(item));
            let words = [no, Word("amount"), item, Word(amount_word(test))];
            line_page(alloc, kind, &words)
        }
        FencesRefusal::Total => line_page(alloc, kind, &[no, amounts, Word("total")]),
        FencesRefusal::Bound(certified) => {
            line_page(alloc, kind, &[no, Word("bound"), Number(certified)])
        }
        FencesRefusal::NoMemory => Err(AllocError),
    }
}

// The line of what is said against a certificate.
fn refusal_page(alloc: Global, refusal: CertificateRefusal) -> Result<Page, AllocError>
    ensures { IfOk result (λ page. IsObjection refusal × (answer_of page ≡ objection_answer refusal)) }
{
    let (no, joins, kind) = (Word("no"), Word("joins"), PageKind::No);
    match refusal {
        CertificateRefusal::ManyJoins => line_page(alloc, kind, &[no, joins, Word("many")]),
        CertificateRefusal::Joins => line_page(alloc, kind, &[no, joins, Word("items")]),
        CertificateRefusal::Reserve => {
            line_page(alloc, kind, &[no, Word("workers"), Word("room")])
        }
        CertificateRefusal::JoinWaits(fence) => {
            let words = [no, Word("fence"), Number(fence), Word("join")];
            line_page(alloc, kind, &words)
        }
        CertificateRefusal::Fences(refusal) => fences_page(alloc, refusal),
        CertificateRefusal::NoMemory => Err(AllocError),
    }
}

// `yes BOUND`
fn kept_page(alloc: Global, bound: u64) -> Result<Page, AllocError>
    ensures { IfOk result (λ page. answer_of page ≡ kept_answer bound) }
{
    line_page(alloc, PageKind::Done, &[Word("yes"), Number(bound)])
}

// The verdict on fences for a system.
fn system_page(
    alloc: Global,
    system: &SharedSystem,
    certificate: &FenceCertificate,
) -> Result<Page, AllocError>
    ensures { IfOk result (λ page. IsFenceCheck system.now certificate.now (answer_of page)) }
{
    match judge_certificate(alloc, system, certificate) {
        Ok(()) => kept_page(alloc, certificate.bound),
        Err(refusal) => refusal_page(alloc, refusal),
    }
}

// The same for tasks.
fn verdict_page(
    alloc: Global,
    tasks: Tasks,
    certificate: &FenceCertificate,
) -> Result<Page, AllocError>
    ensures { IfOk result (λ page. IsFenceCheck (system_of_tasks tasks) certificate.now (answer_of page)) }
{
    let system = tasks.into_shared(alloc)?;
    system_page(alloc, &system, certificate)
}

/// The verdict on the fences: whether their amounts certify the bound.
pub fn report_check_fences<F: Files>(
    alloc: Global,
    files: &mut F,
    asked: FenceCheck<'_>,
) -> Result<Page, Stop>
    ensures told { IsReported (F.bytes_of files.old) (F.faults_of files.old) (F.faults_of files.new)
        (check_fences (tasks_view asked.entry.tasks) asked.entry.fences.now) result }
    ensures same { (other : List ℕ) → F.bytes_of files.new other ≡ F.bytes_of files.old other }
    ensures later { (other : List ℕ) → F.faults_of files.old other ≤ F.faults_of files.new other }
{
    let tasks = judge_tasks(alloc, files, asked.tasks)?;
    let certificate = judge(alloc, files, asked.fences, &FencesFile)?;
    Ok(verdict_page(alloc, tasks, &certificate)?)
}

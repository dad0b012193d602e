//! `check`: whether a plan is accepted for an input.

ghost use Rattle.std.specs.Prelude.{◌≡◌, ◌≤◌, ℕ, List, IfOk};
ghost use Rattle.reports.specs.Check.{verdict_answer};
ghost use Rattle.reports.specs.Reported.{IsReported};
ghost use Rattle.judging.specs.Pages.{answer_of};
ghost use Rattle.requests.specs.Request.{AreWorkers, check};
ghost use Rattle.requests.specs.RequestViews.{input_view};

use claim_check::{Objection, Verdict};
use judging::{Page, PageKind, PlanFile, Stop, judge, judge_input, line_page, order_page};
use mp_outside::{Files, Gate};
use mp_text::Token::{Number, Word};
use requests::Check;
use std::alloc::{AllocError, Global};
use std::thread::Threads;

// `yes PEAK`, or the line of an objection.
fn verdict_page(alloc: Global, verdict: Verdict) -> Result<Page, AllocError>
    ensures { IfOk result (λ page. answer_of page ≡ verdict_answer verdict) }
{
    let (yes, no) = (Word("yes"), Word("no"));
    match verdict {
        Verdict::Yes(peak) => line_page(alloc, PageKind::Done, &[yes, Number(peak)]),
        Verdict::No(Objection::Order(fault)) => order_page(alloc, fault),
        Verdict::No(Objection::Peak { replayed, printed }) => {
            let words = [no, Word("peak"), Number(replayed), Number(printed)];
            line_page(alloc, PageKind::No, &words)
        }
        Verdict::No(Objection::Root { last }) => {
            let last = Number(u64::from(last));
            line_page(alloc, PageKind::No, &[no, Word("root"), last])
        }
        Verdict::No(Objection::Claim { position, shape }) => {
            let position = Number(u64::from(position));
            let words = [no, Word("claim"), position, Word(shape.word())];
            line_page(alloc, PageKind::No, &words)
        }
    }
}

/// The verdict on the plan. `rt` and `gate` are for the threads of the checker.
pub fn report_check<R: Threads + Sync, F: Files, G: Gate>(
    rt: &R,
    alloc: Global,
    files: &mut F,
    asked: Check<'_>,
    gate: &G,
) -> Result<Page, Stop>
    requires { AreWorkers asked.workers }
    ensures told { IsReported (F.bytes_of files.old) (F.faults_of files.old) (F.faults_of files.new)
        (check (input_view asked.entry.input) asked.entry.plan.now asked.entry.workers) result }
    ensures same { (other : List ℕ) → F.bytes_of files.new other ≡ F.bytes_of files.old other }
    ensures later { (other : List ℕ) → F.faults_of files.old other ≤ F.faults_of files.new other }
{
    let problem = judge_input(alloc, files, asked.input)?;
    let plan = judge(alloc, files, asked.plan, &PlanFile)?;
    let verdict = problem.check(rt, alloc, &plan, asked.workers, gate)?;
    Ok(verdict_page(alloc, verdict)?)
}

//! `check` of a plan with a bound: whether it is accepted for a task graph.

ghost use Rattle.std.specs.Prelude.{◌≡◌, ◌≤◌, ℕ, List, IfOk, IsTrue};
ghost use Rattle.mp_text.specs.Report.{is_token};
ghost use Rattle.reports.specs.CheckGraph.{bound_verdict_answer, against_line, evidence_line, test_word};
ghost use Rattle.reports.specs.Reported.{IsReported};
ghost use Rattle.judging.specs.Pages.{answer_of};
ghost use Rattle.requests.specs.Request.{AreWorkers, check_graph};
ghost use Rattle.bound_check.specs.declared.verdict.BoundVerdict.TheVariants.{No};
ghost use Rattle.bound_check.specs.declared.objection.BoundObjection.TheVariants.{Sums, States};

use bound_check::{BoundObjection, BoundVerdict, check_bounded};
use judging::{
    BoundedPlanFile, Page, PageKind, SharedGraphFile, Stop, judge, line_page, order_page,
};
use mp_outside::{Files, Gate};
use mp_text::Token::{Number, Word};
use peak_bounds::{BlockerTest, Objection};
use requests::GraphCheck;
use state_search::StatesObjection;
use std::alloc::{AllocError, Global};
use std::thread::Threads;

// The word for a test of a blocker.
fn test_word(test: BlockerTest) -> &'static str
    ensures word { result.now ≡ test_word test }
    ensures token { IsTrue (is_token result.now) }
{
    match test {
        BlockerTest::Task => "task",
        BlockerTest::Rising => "rising",
        BlockerTest::Amounts => "amounts",
        BlockerTest::Sizes => "sizes",
        BlockerTest::Open => "open",
        BlockerTest::Level => "level",
    }
}

// The line of what is said against sums.
fn evidence_page(alloc: Global, objection: Objection) -> Result<Page, AllocError>
    ensures { IfOk result (λ page. answer_of page ≡ bound_verdict_answer (No (Sums objection))) }
{
    let (no, kind) = (Word("no"), PageKind::No);
    match objection {
        Objection::NoTask => line_page(alloc, kind, &[no, Word("need"), Word("task")]),
        Objection::Low => line_page(alloc, kind, &[no, Word("need"), Word("low")]),
        Objection::Empty => line_page(alloc, kind, &[no, Word("set"), Word("empty")]),
        Objection::Base => line_page(alloc, kind, &[no, Word("set"), Word("base")]),
        Objection::Blocker { test, place } => {
            let words = [no, Word("blocker"), Number(place), Word(test_word(test))];
            line_page(alloc, kind, &words)
        }
    }
}

// The line of what is said against states.
fn states_page(alloc: Global, objection: StatesObjection) -> Result<Page, AllocError>
    ensures { IfOk result (λ page. answer_of page ≡ bound_verdict_answer (No (States objection))) }
{
    let (no, states, kind) = (Word("no"), Word("states"), PageKind::No);
    match objection {
        StatesObjection::Room => line_page(alloc, kind, &[no, states, Word("room")]),
        StatesObjection::Order => line_page(alloc, kind, &[no, states, Word("order")]),
        StatesObjection::Many => line_page(alloc, kind, &[no, states, Word("many")]),
    }
}

// The line of an objection.
fn objection_page(alloc: Global, objection: BoundObjection) -> Result<Page, AllocError>
    ensures { IfOk result (λ page. answer_of page ≡ bound_verdict_answer (No objection)) }
{
    let (no, kind) = (Word("no"), PageKind::No);
    match objection {
        BoundObjection::Order(fault) => order_page(alloc, fault),
        BoundObjection::Peak { replayed, printed } => {
            let words = [no, Word("peak"), Number(replayed), Number(printed)];
            line_page(alloc, kind, &words)
        }
        BoundObjection::Sums(objection) => evidence_page(alloc, objection),
        BoundObjection::States(objection) => states_page(alloc, objection),
        BoundObjection::NoTerm => line_page(alloc, kind, &[no, Word("term")]),
        BoundObjection::Root { last } => {
            let last = Number(u64::from(last));
            line_page(alloc, kind, &[no, Word("root"), last])
        }
        BoundObjection::Claim { position, shape } => {
            let position = Number(u64::from(position));
            let words = [no, Word("claim"), position, Word(shape.word())];
            line_page(alloc, kind, &words)
        }
    }
}

// `yes PEAK least`, `yes PEAK above BOUND`, or the line of an objection.
fn verdict_page(alloc: Global, verdict: BoundVerdict) -> Result<Page, AllocError>
    ensures { IfOk result (λ page. answer_of page ≡ bound_verdict_answer verdict) }
{
    let (yes, kind) = (Word("yes"), PageKind::Done);
    match verdict {
        BoundVerdict::Least(peak) => {
            let words = [yes, Number(peak), Word("least")];
            line_page(alloc, kind, &words)
        }
        BoundVerdict::Above { peak, bound } => {
            let words = [yes, Number(peak), Word("above"), Number(bound)];
            line_page(alloc, kind, &words)
        }
        BoundVerdict::No(objection) => objection_page(alloc, objection),
    }
}

/// The verdict on the plan with a bound. `rt` and `gate` are for the threads of the checker.
pub fn report_check_graph<R: Threads + Sync, F: Files, G: Gate>(
    rt: &R,
    alloc: Global,
    files: &mut F,
    asked: GraphCheck<'_>,
    gate: &G,
) -> Result<Page, Stop>
    requires { AreWorkers asked.workers }
    ensures told { IsReported (F.bytes_of files.old) (F.faults_of files.old) (F.faults_of files.new)
        (check_graph asked.entry.graph.now asked.entry.plan.now asked.entry.workers) result }
    ensures same { (other : List ℕ) → F.bytes_of files.new other ≡ F.bytes_of files.old other }
    ensures later { (other : List ℕ) → F.faults_of files.old other ≤ F.faults_of files.new other }
{
    let system = judge(alloc, files, asked.graph, &SharedGraphFile)?;
    let plan = judge(alloc, files, asked.plan, &BoundedPlanFile)?;
    let verdict = check_bounded(rt, alloc, &system, &plan, asked.workers, gate)?;
    Ok(verdict_page(alloc, verdict)?)
}

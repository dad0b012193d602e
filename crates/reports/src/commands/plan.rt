//! `plan`: a traversal of least peak, with its certificate.

ghost use Rattle.std.specs.Prelude.{◌≡◌, ◌≤◌, ℕ, List, IfOk};
ghost use Rattle.reports.specs.Plan.{plan_answer};
ghost use Rattle.reports.specs.Reported.{IsReported};
ghost use Rattle.judging.specs.Pages.{answer_of};
ghost use Rattle.requests.specs.Request.{planning};
ghost use Rattle.requests.specs.RequestViews.{input_view, format_view};

use judging::{Page, PageKind, Stop, judge_input, line_page};
use mp_outside::Files;
use mp_text::Report;
use mp_text::Token::Word;
use plan_files::{plan_json, print_plan};
use plans::Plan;
use requests::{Input, PlanFormat};
use std::alloc::{AllocError, Global};

// A plan file, or the JSON of the plan.
fn plan_page(alloc: Global, format: PlanFormat, plan: &Plan) -> Result<Page, AllocError>
    ensures { IfOk result (λ page. answer_of page ≡ plan_answer (format_view format) plan.now) }
{
    let kind = PageKind::Done;
    match format {
        PlanFormat::File => {
            let mut report = Report::new(alloc);
            print_plan(plan, &mut report)?;
            Ok(Page { kind, report })
        }
        PlanFormat::Json => {
            let text = plan_json(alloc, plan)?;
            line_page(alloc, kind, &[Word(text.as_str())])
        }
    }
}

/// The plan of the input, as a file or as JSON.
pub fn report_plan<F: Files>(
    alloc: Global,
    files: &mut F,
    input: Input<'_>,
    format: PlanFormat,
) -> Result<Page, Stop>
    ensures told { IsReported (F.bytes_of files.old) (F.faults_of files.old) (F.faults_of files.new)
        (planning (input_view input.entry) (format_view format)) result }
    ensures same { (other : List ℕ) → F.bytes_of files.new other ≡ F.bytes_of files.old other }
    ensures later { (other : List ℕ) → F.faults_of files.old other ≤ F.faults_of files.new other }
{
    let problem = judge_input(alloc, files, input)?;
    let plan = problem.into_plan(alloc)?;
    Ok(plan_page(alloc, format, &plan)?)
}

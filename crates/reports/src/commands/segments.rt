//! `segments`: how low memory can come within each bound, in each subtree of a tree, or in the term at each position of a workflow.

ghost use Rattle.std.specs.Prelude.{◌≡◌, ◌≤◌, ◌<◌, ◌++◌, ℕ, List, IfOk, OnOk, IsTrue, length};
ghost use Rattle.std.specs.List.{flat_map};
ghost use Rattle.limits.specs.Limits.{most_steps};
ghost use Rattle.mp_text.specs.Report.{is_line_start, is_token, line_text, text_of_lines};
ghost use Rattle.sp_terms.specs.Values.{AreValues};
ghost use Rattle.sp_cuts.specs.Stairs.{AreStairs, PassesLimit, step_total, both_of, all_of};
ghost use Rattle.reports.specs.Segments.{side_line, both_lines, row_lines, report_rows, segments_answer, input_word};
ghost use Rattle.reports.specs.Segments.{IsSegmentsAnswer};
ghost use Rattle.judging.specs.Judged.{AreWithin};
ghost use Rattle.reports.specs.Reported.{IsReported};
ghost use Rattle.judging.specs.Pages.{answer_of};
ghost use Rattle.requests.specs.Request.{segments};
ghost use Rattle.requests.specs.RequestViews.{input_view};

use hill_valley::Step;
use judging::{
    NumberedTerm, Page, PageKind, Stop, judge_numbered, limit_page, print_count, print_end,
};
use limits::LimitName;
use mp_outside::Files;
use mp_text::Report;
use mp_text::laws::{printed_line, printed_lines};
use requests::{Input, TreeInput};
use sp_cuts::{Stairs, StairsRefusal, staircases};
use sp_terms::{TermList, Values, values};
use std::alloc::{AllocError, Global};
use std::marker::Brand;
use std::sync::ledger::{Blank, Ledger};
use step_count::Steps;

// ---- the staircases

// Those of all positions. The planner counts the segments that it moves; nobody asks for the count here.
fn counted<L: Ledger>(
    alloc: Global,
    blank: Blank,
    terms: &TermList,
) -> Result<Vec<Stairs>, StairsRefusal>
    requires name { blank.name ≡ L.name }
    requires parts { blank.parts ≡ L.parts }
    requires some { 0 < blank.parts }
    ensures stairs { IfOk result (λ all. AreStairs terms.now (all_of all.items)) }
    ensures few { IfOk result (λ all. step_total (all_of all.items) ≤ most_steps) }
    ensures limit { result ≡ Err StairsRefusal.Limit → PassesLimit terms.now }
{
    let mut steps = Steps::<L>::new(blank);
    staircases(alloc, terms, &mut steps)
}

fn stairs_of(alloc: Global, terms: &TermList) -> Result<Vec<Stairs>, StairsRefusal>
    ensures stairs { IfOk result (λ all. AreStairs terms.now (all_of all.items)) }
    ensures few { IfOk result (λ all. step_total (all_of all.items) ≤ most_steps) }
    ensures limit { result ≡ Err StairsRefusal.Limit → PassesLimit terms.now }
{
    counted::<Brand>(alloc, Blank::new(1), terms)
}

// ---- the report

// `NUMBER DIRECTION START`, and `BOUND LEVEL` for each step.
fn print_side(
    number: u64,
    direction: &str,
    start: u64,
    steps: &[Step],
    report: &mut Report,
) -> Result<(), AllocError>
    requires start { IsTrue (is_line_start report.old) }
    requires direction { IsTrue (is_token direction.now) }
    ensures start { OnOk result (IsTrue (is_line_start report.new)) }
    ensures text { OnOk result (report.new ≡ report.old ++ line_text (side_line number direction.now start steps.now)) }
{
    printed_line();
    report.num(number)?;
    report.word(direction)?;
    report.num(start)?;
    for step in steps {
        report.num(step.bound)?;
        report.num(step.level)?;
    }
    report.end_line()
}

// A line for each direction.
fn print_both(
    number: u64,
    values: Values,
    stairs: &Stairs,
    report: &mut Report,
) -> Result<(), AllocError>
    requires { IsTrue (is_line_start report.old) }
    ensures start { OnOk result (IsTrue (is_line_start report.new)) }
    ensures text { OnOk result (report.new
        ≡ report.old ++ text_of_lines (both_lines number values.initial values.fin (both_of stairs.now))) }
{
    printed_lines();
    print_side(number, "F", values.initial, &stairs.front, report)?;
    print_side(number, "R", values.fin, &stairs.back, report)
}

// The lines of each number.
fn print_rows(
    numbered: &NumberedTerm,
    values: &[Values],
    stairs: &[Stairs],
    report: &mut Report,
) -> Result<(), AllocError>
    requires start { IsTrue (is_line_start report.old) }
    requires within { AreWithin (length numbered.now.terms) numbered.now.positions.items }
    requires stairs { length stairs.now ≡ length numbered.now.terms }
    requires values { length values.now ≡ length numbered.now.terms }
    requires known { AreValues numbered.now.terms values.now (length numbered.now.terms) }
    ensures start { OnOk result (IsTrue (is_line_start report.new)) }
    ensures text { OnOk result (report.new ≡ report.old
        ++ text_of_lines (flat_map row_lines (report_rows numbered.now.terms (all_of stairs.now) numbered.now.positions.items))) }
{
    printed_lines();
    for (i, position) in numbered.positions.iter().enumerate() {
        let at = *position as usize - 1;
        print_both(i as u64 + 1, values[at], &stairs[at], report)?;
    }
    Ok(())
}

// `segments N`, the lines of each number, `end`
fn stairs_page(
    alloc: Global,
    numbered: &NumberedTerm,
    stairs: &[Stairs],
) -> Result<Page, AllocError>
    requires within { AreWithin (length numbered.now.terms) numbered.now.positions.items }
    requires stairs { length stairs.now ≡ length numbered.now.terms }
    ensures { IfOk result (λ page. answer_of page
        ≡ segments_answer (report_rows numbered.now.terms (all_of stairs.now) numbered.now.positions.items)) }
{
    printed_lines();
    let values = values(alloc, &numbered.terms)?;
    let mut report = Report::new(alloc);
    print_count("segments", numbered.positions.len() as u64, &mut report)?;
    print_rows(numbered, &values, stairs, &mut report)?;
    print_end(&mut report)?;
    let kind = PageKind::Done;
    Ok(Page { kind, report })
}

// The word for the file that an input is read from.
fn input_word(input: Input<'_>) -> &'static str
    ensures { result.now ≡ input_word (input_view input.entry) }
{
    match input {
        Input::Tree(TreeInput::Tree(_)) => "tree",
        Input::Tree(TreeInput::Matrix(_)) => "matrix",
        Input::Workflow(_) => "workflow",
    }
}

// The staircases of each number, or that all positions have too many steps.
fn segments_page(
    alloc: Global,
    input: Input<'_>,
    numbered: &NumberedTerm,
) -> Result<Page, AllocError>
    requires { AreWithin (length numbered.now.terms) numbered.now.positions.items }
    ensures { IfOk result (λ page.
        IsSegmentsAnswer (input_view input.entry) numbered.now.terms numbered.now.positions.items (answer_of page)) }
{
    match stairs_of(alloc, &numbered.terms) {
        Ok(stairs) => stairs_page(alloc, numbered, &stairs),
        Err(StairsRefusal::Limit) => limit_page(alloc, input_word(input), LimitName::Steps),
        Err(StairsRefusal::NoMemory) => Err(AllocError),
    }
}

/// The staircases of each subtree of a tree, or of the term at each position of a workflow.
pub fn report_segments<F: Files>(
    alloc: Global,
    files: &mut F,
    input: Input<'_>,
) -> Result<Page, Stop>
    ensures told { IsReported (F.bytes_of files.old) (F.faults_of files.old) (F.faults_of files.new)
        (segments (input_view input.entry)) result }
    ensures same { (other : List ℕ) → F.bytes_of files.new other ≡ F.bytes_of files.old other }
    ensures later { (other : List ℕ) → F.faults_of files.old other ≤ F.faults_of files.new other }
{
    let numbered = judge_numbered(alloc, files, input)?;
    Ok(segments_page(alloc, input, &numbered)?)
}

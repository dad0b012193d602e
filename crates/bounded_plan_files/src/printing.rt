//! Printing of plans of version 3, line by line.

ghost use Rattle.std.specs.Prelude.{◌≡◌, ◌++◌, map, length, take, IsTrue, OnOk, OnErr};
ghost use Rattle.std.specs.List.{flat_map};
ghost use Rattle.mp_text.specs.Report.{is_line_start, text_of_lines};
ghost use Rattle.bounded_plan_files.specs.Printed.{amount_line, blocker_lines, event_word, set_lines, evidence_lines, bound_text};
ghost use Rattle.bounded_plan_files.specs.Printed.{head_lines, bounded_plan_text};

use crate::NoMemory;
use bounded_plans::{BoundEvidence, BoundedPlan};
use file_frame::{print_end, print_section};
use mp_text::laws::printed_lines;
use mp_text::{Report, Token};
use peak_bounds::{Amount, Blocker, Event, EventSet, Evidence};
use plan_files::{print_claims, print_tasks};

fn print_amounts(amounts: &[Amount], report: &mut Report) -> Result<(), NoMemory>
    requires { IsTrue (is_line_start report.old) }
    ensures ok { OnOk result (report.new ≡ report.old ++ text_of_lines (map amount_line amounts.now)) }
    ensures start { OnOk result (IsTrue (is_line_start report.new)) }
    ensures err { OnErr result (take (length report.old) report.new ≡ report.old) }
{
    printed_lines();
    for amount in amounts {
        report.line(&[
            Token::Number(u64::from(amount.place)),
            Token::Signed(amount.amount),
        ])?;
    }
    Ok(())
}

fn print_blocker(blocker: &Blocker, report: &mut Report) -> Result<(), NoMemory>
    requires { IsTrue (is_line_start report.old) }
    ensures ok { OnOk result (report.new ≡ report.old ++ text_of_lines (blocker_lines blocker.now)) }
    ensures start { OnOk result (IsTrue (is_line_start report.new)) }
    ensures err { OnErr result (take (length report.old) report.new ≡ report.old) }
{
    printed_lines();
    let amounts = blocker.amounts();
    report.line(&[
        Token::Word("blocker"),
        Token::Number(u64::from(blocker.task())),
        Token::Number(amounts.len() as u64),
    ])?;
    print_amounts(amounts, report)
}

fn print_blockers(blockers: &[Blocker], report: &mut Report) -> Result<(), NoMemory>
    requires { IsTrue (is_line_start report.old) }
    ensures ok { OnOk result (report.new ≡ report.old ++ text_of_lines (flat_map blocker_lines blockers.now)) }
    ensures start { OnOk result (IsTrue (is_line_start report.new)) }
    ensures err { OnErr result (take (length report.old) report.new ≡ report.old) }
{
    printed_lines();
    for blocker in blockers {
        print_blocker(blocker, report)?;
    }
    Ok(())
}

/// The word for an event.
pub fn event_word(event: Event) -> &'static str
    ensures { result.now ≡ event_word event }
{
    match event {
        Event::First => "first",
        Event::Last => "last",
    }
}

fn print_set(set: &EventSet, report: &mut Report) -> Result<(), NoMemory>
    requires { IsTrue (is_line_start report.old) }
    ensures ok { OnOk result (report.new ≡ report.old ++ text_of_lines (set_lines set.now)) }
    ensures start { OnOk result (IsTrue (is_line_start report.new)) }
    ensures err { OnErr result (take (length report.old) report.new ≡ report.old) }
{
    printed_lines();
    print_section(event_word(set.event()), set.blockers().len() as u64, report)?;
    print_section("base", set.base().len() as u64, report)?;
    print_amounts(set.base(), report)?;
    print_blockers(set.blockers(), report)
}

fn print_evidence(evidence: &BoundEvidence, report: &mut Report) -> Result<(), NoMemory>
    requires { IsTrue (is_line_start report.old) }
    ensures ok { OnOk result (report.new ≡ report.old ++ text_of_lines (evidence_lines evidence.now)) }
    ensures start { OnOk result (IsTrue (is_line_start report.new)) }
    ensures err { OnErr result (take (length report.old) report.new ≡ report.old) }
{
    printed_lines();
    match evidence {
        BoundEvidence::Sums(Evidence::Start) => print_section("need", 0, report),
        BoundEvidence::Sums(Evidence::Need(task)) => print_section(
            "need",
            u64::from(*task),
            report,
        ),
        BoundEvidence::Sums(Evidence::Set(set)) => print_set(set, report),
        BoundEvidence::Claims(claims) => print_claims(claims.claims(), report),
        BoundEvidence::States(most) => print_section("states", u64::from(*most), report),
    }
}

// The lines of the bound and its evidence, or some bytes.
fn print_bound_lines(
    bound: u64,
    evidence: &BoundEvidence,
    report: &mut Report,
) -> Result<(), NoMemory>
    requires { IsTrue (is_line_start report.old) }
    ensures ok { OnOk result (report.new ≡ report.old ++ bound_text bound evidence.now) }
    ensures err { OnErr result (take (length report.old) report.new ≡ report.old) }
{
    printed_lines();
    print_section("bound", bound, report)?;
    print_evidence(evidence, report)?;
    print_end(report)
}

// Line 1, the order and the peak, or some bytes.
fn print_head(plan: &BoundedPlan, report: &mut Report) -> Result<(), NoMemory>
    requires { IsTrue (is_line_start report.old) }
    ensures ok { OnOk result (report.new ≡ report.old ++ text_of_lines (head_lines plan.now)) }
    ensures start { OnOk result (IsTrue (is_line_start report.new)) }
    ensures err { OnErr result (take (length report.old) report.new ≡ report.old) }
{
    printed_lines();
    report.line(&[Token::Word("plan"), Token::Word("3")])?;
    print_tasks("order", plan.order(), report)?;
    print_section("peak", plan.peak(), report)
}

// All lines, or some bytes.
fn print_lines(plan: &BoundedPlan, report: &mut Report) -> Result<(), NoMemory>
    requires { IsTrue (is_line_start report.old) }
    ensures ok { OnOk result (report.new ≡ report.old ++ bounded_plan_text plan.now) }
    ensures err { OnErr result (take (length report.old) report.new ≡ report.old) }
{
    printed_lines();
    print_head(plan, report)?;
    print_bound_lines(plan.bound(), plan.evidence(), report)
}

/// Appends the lines of a bound and its evidence, from `bound L` to `end`. Linear in the evidence.
///
/// Where memory runs out, the report stays as it was.
pub fn print_bound(
    bound: u64,
    evidence: &BoundEvidence,
    report: &mut Report,
) -> Result<(), NoMemory>
    requires { IsTrue (is_line_start report.old) }
    ensures ok { OnOk result (report.new ≡ report.old ++ bound_text bound evidence.now) }
    ensures err { OnErr result (report.new ≡ report.old) }
{
    let start = report.len();
    let printed = print_bound_lines(bound, evidence, report);
    if printed.is_err() {
        report.cut(start);
    }
    printed
}

/// Appends the lines of a plan file of version 3. Linear in the tasks and the evidence.
///
/// Whatever is printed is within the bytes that a file may have, so that it can be read again (`laws::printed_length`).
///
/// Where memory runs out, the report stays as it was.
pub fn print_bounded_plan(plan: &BoundedPlan, report: &mut Report) -> Result<(), NoMemory>
    requires { IsTrue (is_line_start report.old) }
    ensures ok { OnOk result (report.new ≡ report.old ++ bounded_plan_text plan.now) }
    ensures err { OnErr result (report.new ≡ report.old) }
{
    let start = report.len();
    let printed = print_lines(plan, report);
    if printed.is_err() {
        report.cut(start);
    }
    printed
}

//! Printing of plans, line by line.

ghost use Rattle.std.specs.Prelude.{◌≡◌, ◌++◌, map, length, take, IsTrue, OnOk, OnErr};
ghost use Rattle.mp_text.specs.Report.{is_line_start, is_token, text_of_lines};
ghost use Rattle.plan_files.specs.Printed.{task_line, dir_word, claim_line, task_lines, claim_lines, priority_lines, last_lines, plan_text_in};
ghost use Rattle.plan_files.specs.Printed.{plan_version_for, plan_text, plan_text_2};

use crate::NoMemory;
use file_frame::{Version, print_end, print_header, print_section};
use mp_text::laws::printed_lines;
use mp_text::{Report, Token};
use plans::{Claim, Direction, Plan};

/// The word for a direction.
pub fn dir_word(dir: Direction) -> &'static str
    ensures { result.now ≡ dir_word dir }
{
    match dir {
        Direction::Forward => "F",
        Direction::Backward => "R",
    }
}

/// How many tasks there are, behind this word, and each on a line.
pub fn print_tasks(word: &str, tasks: &[u32], report: &mut Report) -> Result<(), NoMemory>
    requires token { IsTrue (is_token word.now) }
    requires start { IsTrue (is_line_start report.old) }
    ensures ok { OnOk result (report.new ≡ report.old ++ text_of_lines (task_lines word.now tasks.now)) }
    ensures start { OnOk result (IsTrue (is_line_start report.new)) }
    ensures err { OnErr result (take (length report.old) report.new ≡ report.old) }
{
    printed_lines();
    print_section(word, tasks.len() as u64, report)?;
    for task in tasks {
        report.line(&[Token::Number(u64::from(*task))])?;
    }
    Ok(())
}

/// How many claims there are, and each on a line.
pub fn print_claims(claims: &[Claim], report: &mut Report) -> Result<(), NoMemory>
    requires { IsTrue (is_line_start report.old) }
    ensures ok { OnOk result (report.new ≡ report.old ++ text_of_lines (claim_lines claims.now)) }
    ensures start { OnOk result (IsTrue (is_line_start report.new)) }
    ensures err { OnErr result (take (length report.old) report.new ≡ report.old) }
{
    printed_lines();
    print_section("claims", claims.len() as u64, report)?;
    for claim in claims {
        report.line(&[
            Token::Number(u64::from(claim.position)),
            Token::Word(dir_word(claim.dir)),
            Token::Signed(claim.bound),
            Token::Number(claim.rest),
        ])?;
    }
    Ok(())
}

// The lines after the priority.
fn print_last(plan: &Plan, report: &mut Report) -> Result<(), NoMemory>
    requires { IsTrue (is_line_start report.old) }
    ensures ok { OnOk result (report.new ≡ report.old ++ text_of_lines (last_lines plan.now)) }
    ensures err { OnErr result (take (length report.old) report.new ≡ report.old) }
{
    printed_lines();
    print_section("peak", plan.peak(), report)?;
    print_claims(plan.claims(), report)?;
    print_end(report)
}

// The priority, which only version 2 has, and the lines after it.
fn print_rest(version: Version, plan: &Plan, report: &mut Report) -> Result<(), NoMemory>
    requires { IsTrue (is_line_start report.old) }
    ensures ok { OnOk result (report.new ≡ report.old ++ text_of_lines (priority_lines version plan.now.priority ++ last_lines plan.now)) }
    ensures err { OnErr result (take (length report.old) report.new ≡ report.old) }
{
    printed_lines();
    match version {
        Version::One => print_last(plan, report),
        Version::Two => {
            print_tasks("priority", plan.priority(), report)?;
            print_last(plan, report)
        }
    }
}

// Appends the lines of a version, or some bytes.
fn print_lines(version: Version, plan: &Plan, report: &mut Report) -> Result<(), NoMemory>
    requires { IsTrue (is_line_start report.old) }
    ensures ok { OnOk result (report.new ≡ report.old ++ plan_text_in version plan.now) }
    ensures err { OnErr result (take (length report.old) report.new ≡ report.old) }
{
    printed_lines();
    print_header("plan", version, report)?;
    print_tasks("order", plan.order(), report)?;
    print_rest(version, plan, report)
}

fn print_in(version: Version, plan: &Plan, report: &mut Report) -> Result<(), NoMemory>
    requires { IsTrue (is_line_start report.old) }
    ensures ok { OnOk result (report.new ≡ report.old ++ plan_text_in version plan.now) }
    ensures err { OnErr result (report.new ≡ report.old) }
{
    let start = report.len();
    let printed = print_lines(version, plan, report);
    if printed.is_err() {
        report.cut(start);
    }
    printed
}

fn version_for(priority: &[u32]) -> Version
    ensures { result ≡ plan_version_for priority.now }
{
    if priority.is_empty() {
        Version::One
    } else {
        Version::Two
    }
}

/// Appends the lines of a plan file, of version 1 where the priority is empty, else of version 2. Linear in the tasks and the claims.
///
/// Where memory runs out, the report stays as it was.
pub fn print_plan(plan: &Plan, report: &mut Report) -> Result<(), NoMemory>
    requires { IsTrue (is_line_start report.old) }
    ensures ok { OnOk result (report.new ≡ report.old ++ plan_text plan.now) }
    ensures err { OnErr result (report.new ≡ report.old) }
{
    print_in(version_for(plan.priority()), plan, report)
}

/// Appends the lines of a plan file of version 2. Linear in the tasks and the claims.
///
/// Where memory runs out, the report stays as it was.
pub fn print_plan_2(plan: &Plan, report: &mut Report) -> Result<(), NoMemory>
    requires { IsTrue (is_line_start report.old) }
    ensures ok { OnOk result (report.new ≡ report.old ++ plan_text_2 plan.now) }
    ensures err { OnErr result (report.new ≡ report.old) }
{
    print_in(Version::Two, plan, report)
}

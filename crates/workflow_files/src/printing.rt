//! Printing of workflows, line by line.

ghost use Rattle.std.specs.Prelude.{◌≡◌, ◌≤◌, ◌++◌, map, length, take, IsTrue, OnOk, OnErr};
ghost use Rattle.std.specs.List.{list_any, sum_by};
ghost use Rattle.limits.specs.Limits.{most_tasks};
ghost use Rattle.mp_text.specs.Report.{is_line_start, line_text, text_of_lines};
ghost use Rattle.sp_terms.specs.Values.{added_tasks};
ghost use Rattle.workflow_files.specs.WorkflowText.{position_line, workflow_text_in, is_sharing, workflow_version_for};
ghost use Rattle.workflow_files.specs.WorkflowText.{workflow_text, workflow_text_2};

use crate::NoMemory;
use file_frame::{Version, print_end, print_header, print_section};
use mp_text::laws::printed_lines;
use mp_text::{Report, Token};
use sp_terms::{Position, TermList, tasks_of_position};

fn print_position(version: Version, position: Position, report: &mut Report) -> Result<(), NoMemory>
    requires { IsTrue (is_line_start report.old) }
    ensures ok { OnOk result (report.new ≡ report.old ++ line_text (position_line version position)) }
    ensures start { OnOk result (IsTrue (is_line_start report.new)) }
    ensures err { OnErr result (report.new ≡ report.old) }
{
    match position {
        Position::Hold(size) => report.line(&[Token::Word("data"), Token::Number(size)]),
        Position::Task { extra, share, time } => {
            let word = Token::Word("task");
            let extra = Token::Number(extra);
            let time = Token::Number(time);
            match version {
                Version::One => report.line(&[word, extra, time]),
                Version::Two => report.line(&[word, extra, Token::Number(share), time]),
            }
        }
        Position::Par(parts) => report.line(&[Token::Word("par"), Token::Number(u64::from(parts))]),
    }
}

fn print_positions(
    version: Version,
    positions: &[Position],
    report: &mut Report,
) -> Result<(), NoMemory>
    requires { IsTrue (is_line_start report.old) }
    ensures ok { OnOk result (report.new ≡ report.old ++ text_of_lines (map (position_line version) positions.now)) }
    ensures start { OnOk result (IsTrue (is_line_start report.new)) }
    ensures err { OnErr result (take (length report.old) report.new ≡ report.old) }
{
    printed_lines();
    for position in positions {
        print_position(version, *position, report)?;
    }
    Ok(())
}

// Appends the lines of a version, or some bytes.
fn print_part(version: Version, positions: &[Position], report: &mut Report) -> Result<(), NoMemory>
    requires few { sum_by added_tasks positions.now ≤ most_tasks }
    requires start { IsTrue (is_line_start report.old) }
    ensures ok { OnOk result (report.new ≡ report.old ++ workflow_text_in version positions.now) }
    ensures err { OnErr result (take (length report.old) report.new ≡ report.old) }
{
    printed_lines();
    print_header("workflow", version, report)?;
    let tasks = positions
        .iter()
        .map(|position| tasks_of_position(*position))
        .sum();
    print_section("tasks", tasks, report)?;
    print_positions(version, positions, report)?;
    print_end(report)
}

fn print_in(version: Version, positions: &[Position], report: &mut Report) -> Result<(), NoMemory>
    requires few { sum_by added_tasks positions.now ≤ most_tasks }
    requires start { IsTrue (is_line_start report.old) }
    ensures ok { OnOk result (report.new ≡ report.old ++ workflow_text_in version positions.now) }
    ensures err { OnErr result (report.new ≡ report.old) }
{
    let start = report.len();
    let printed = print_part(version, positions, report);
    if printed.is_err() {
        report.cut(start);
    }
    printed
}

fn is_sharing(position: Position) -> bool
    ensures { result ≡ is_sharing position }
{
    match position {
        Position::Task { share, .. } => share != 0,
        _ => false,
    }
}

fn has_share(positions: &[Position]) -> bool
    ensures { result ≡ list_any is_sharing positions.now }
{
    positions.iter().any(|position| is_sharing(*position))
}

fn version_for(positions: &[Position]) -> Version
    ensures { result ≡ workflow_version_for positions.now }
{
    if has_share(positions) {
        Version::Two
    } else {
        Version::One
    }
}

/// Appends the lines of a workflow file, of version 1 where every share is 0, else of version 2. Linear in the positions.
///
/// Where memory runs out, the report stays as it was.
pub fn print_workflow(terms: &TermList, report: &mut Report) -> Result<(), NoMemory>
    requires { IsTrue (is_line_start report.old) }
    ensures ok { OnOk result (report.new ≡ report.old ++ workflow_text terms.now) }
    ensures err { OnErr result (report.new ≡ report.old) }
{
    let positions = terms.positions();
    print_in(version_for(positions), positions, report)
}

/// Appends the lines of a workflow file of version 2. Linear in the positions.
///
/// Where memory runs out, the report stays as it was.
pub fn print_workflow_2(terms: &TermList, report: &mut Report) -> Result<(), NoMemory>
    requires { IsTrue (is_line_start report.old) }
    ensures ok { OnOk result (report.new ≡ report.old ++ workflow_text_2 terms.now) }
    ensures err { OnErr result (report.new ≡ report.old) }
{
    print_in(Version::Two, terms.positions(), report)
}

//! The workflow file of a term whose tasks have names, which stand as comments after its last line.

ghost use Rattle.std.specs.Prelude.{◌≡◌, ◌≤◌, ◌++◌, length, take, IsTrue, OnOk, OnErr};
ghost use Rattle.mp_text.specs.Report.{is_line_start, text_of_lines};
ghost use Rattle.workflow_files.specs.NamedText.{name_lines, named_text};

use crate::NoMemory;
use crate::printing::print_workflow;
use mp_text::laws::printed_lines;
use mp_text::{Report, Token};
use sp_terms::TermList;

// `# K NAME` for each task.
fn print_names(names: &[u32], report: &mut Report) -> Result<(), NoMemory>
    requires { IsTrue (is_line_start report.old) }
    ensures ok { OnOk result (report.new ≡ report.old ++ text_of_lines (name_lines names.now)) }
    ensures err { OnErr result (take (length report.old) report.new ≡ report.old) }
{
    printed_lines();
    for (place, name) in names.iter().enumerate() {
        report.line(&[
            Token::Word("#"),
            Token::Number(place as u64 + 1),
            Token::Number(u64::from(*name)),
        ])?;
    }
    Ok(())
}

// Appends the lines, or some bytes.
fn print_parts(terms: &TermList, names: &[u32], report: &mut Report) -> Result<(), NoMemory>
    requires { IsTrue (is_line_start report.old) }
    ensures ok { OnOk result (report.new ≡ report.old ++ named_text terms.now names.now) }
    ensures err { OnErr result (take (length report.old) report.new ≡ report.old) }
{
    printed_lines();
    print_workflow(terms, report)?;
    print_names(names, report)?;
    Ok(())
}

/// Appends the lines of the term's workflow file, of version 1 where every share is 0, else of version 2, and a comment `# K NAME` for
/// each task K of the term, which has the K-th name. Linear in the positions.
///
/// Where memory runs out, the report stays as it was.
pub fn print_named(terms: &TermList, names: &[u32], report: &mut Report) -> Result<(), NoMemory>
    requires { IsTrue (is_line_start report.old) }
    ensures ok { OnOk result (report.new ≡ report.old ++ named_text terms.now names.now) }
    ensures err { OnErr result (report.new ≡ report.old) }
{
    let start = report.len();
    let printed = print_parts(terms, names, report);
    if printed.is_err() {
        report.cut(start);
    }
    printed
}

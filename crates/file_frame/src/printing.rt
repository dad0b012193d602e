//! Printing of the lines of the frame. A line is printed whole, or not at all where memory runs out.

ghost use Rattle.std.specs.Prelude.{◌≡◌, ◌++◌, IsTrue, OnOk, OnErr};
ghost use Rattle.mp_text.specs.Report.{is_line_start, is_token, line_text};
ghost use Rattle.file_frame.specs.Printed.{header_line, section_line, end_line};

use crate::version::Version;
use mp_text::{NoMemory, Report, Token};

/// Appends line 1.
pub fn print_header(name: &str, version: Version, report: &mut Report) -> Result<(), NoMemory>
    requires token { IsTrue (is_token name.now) }
    requires start { IsTrue (is_line_start report.old) }
    ensures ok { OnOk result (report.new ≡ report.old ++ line_text (header_line name.now version)) }
    ensures start { OnOk result (IsTrue (is_line_start report.new)) }
    ensures err { OnErr result (report.new ≡ report.old) }
{
    report.line(&[Token::Word(name), Token::Word(version.word())])
}

/// Appends a line that begins a section.
pub fn print_section(word: &str, number: u64, report: &mut Report) -> Result<(), NoMemory>
    requires token { IsTrue (is_token word.now) }
    requires start { IsTrue (is_line_start report.old) }
    ensures ok { OnOk result (report.new ≡ report.old ++ line_text (section_line word.now number)) }
    ensures start { OnOk result (IsTrue (is_line_start report.new)) }
    ensures err { OnErr result (report.new ≡ report.old) }
{
    report.line(&[Token::Word(word), Token::Number(number)])
}

/// Appends the last line.
pub fn print_end(report: &mut Report) -> Result<(), NoMemory>
    requires { IsTrue (is_line_start report.old) }
    ensures ok { OnOk result (report.new ≡ report.old ++ line_text end_line) }
    ensures start { OnOk result (IsTrue (is_line_start report.new)) }
    ensures err { OnErr result (report.new ≡ report.old) }
{
    report.line(&[Token::Word("end")])
}

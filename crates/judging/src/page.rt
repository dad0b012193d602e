//! Pages: what is written to the sink, whole before its first byte is written.

ghost use Rattle.std.specs.Prelude.{◌≡◌, ◌++◌, ◌∷◌, [], map, codes, decimal, IfOk, OnOk, IsTrue};
ghost use Rattle.std.specs.List.{list_all};
ghost use Rattle.limits.specs.Limits.{word_of};
ghost use Rattle.mp_text.specs.Report.{is_token, is_line_start, is_printable, line_text, text_of_lines, token_text};
ghost use Rattle.judging.specs.Files.{bound_refused, format_refused, limit_refused, order_refused};
ghost use Rattle.judging.specs.Pages.{answer_of, status_of};

use limits::LimitName;
use mp_system::OrderFault;
use mp_text::Token::{Number, Word};
use mp_text::laws::{printed_line, printed_lines};
use mp_text::{Report, Token};
use std::alloc::{AllocError, Global};

/// What a page is.
#[derive(Clone, Copy, Debug, PartialEq, Eq)]
pub enum PageKind {
    Done,
    No,
    Format,
    Limit,
    Bound,
    NotSeriesParallel,
    WorkingSet,
}

/// A kind and its text.
#[derive(Drop)]
pub struct Page {
    pub kind: PageKind,
    pub report: Report,
}

/// A page of one line.
pub fn line_page(alloc: Global, kind: PageKind, tokens: &[Token<'_>]) -> Result<Page, AllocError>
    requires { IsTrue (list_all is_printable tokens.now) }
    ensures { IfOk result (λ page. answer_of page ≡ record { status = status_of kind; text = line_text (map token_text tokens.now) }) }
{
    let mut report = Report::new(alloc);
    report.line(tokens)?;
    Ok(Page { kind, report })
}

/// `refused format FILE KIND LINE`
pub fn format_page<'a>(
    alloc: Global,
    file: &'a str,
    kind: &'a str,
    line: u64,
) -> Result<Page, AllocError>
    requires file { IsTrue (is_token file.now) }
    requires kind { IsTrue (is_token kind.now) }
    ensures { IfOk result (λ page. answer_of page ≡ format_refused file.now kind.now line) }
{
    let (file, kind, line) = (Word(file), Word(kind), Number(line));
    let words = [Word("refused"), Word("format"), file, kind, line];
    line_page(alloc, PageKind::Format, &words)
}

/// `refused limit FILE NAME`
pub fn limit_page(alloc: Global, file: &str, limit: LimitName) -> Result<Page, AllocError>
    requires { IsTrue (is_token file.now) }
    ensures { IfOk result (λ page. answer_of page ≡ limit_refused file.now (word_of limit)) }
{
    let (file, name) = (Word(file), Word(limit.word()));
    let words = [Word("refused"), Word("limit"), file, name];
    line_page(alloc, PageKind::Limit, &words)
}

/// `no order PLACE KIND`
pub fn order_page(alloc: Global, fault: OrderFault) -> Result<Page, AllocError>
    ensures { IfOk result (λ page. answer_of page ≡ order_refused fault.place fault.kind) }
{
    let (place, kind) = (Number(fault.place), Word(fault.kind.word()));
    let words = [Word("no"), Word("order"), place, kind];
    line_page(alloc, PageKind::No, &words)
}

/// `refused bound BOUND PEAK`
pub fn bound_page(alloc: Global, bound: u64, peak: u64) -> Result<Page, AllocError>
    ensures { IfOk result (λ page. answer_of page ≡ bound_refused bound peak) }
{
    let words = [Word("refused"), Word("bound"), Number(bound), Number(peak)];
    line_page(alloc, PageKind::Bound, &words)
}

/// A word and a number on a line.
pub fn print_count(word: &str, number: u64, report: &mut Report) -> Result<(), AllocError>
    requires start { IsTrue (is_line_start report.old) }
    requires token { IsTrue (is_token word.now) }
    ensures start { OnOk result (IsTrue (is_line_start report.new)) }
    ensures text { OnOk result (report.new ≡ report.old ++ line_text (word.now ∷ decimal number ∷ [])) }
{
    report.line(&[Word(word), Number(number)])
}

/// Numbers on one line, one after another.
pub fn print_list(numbers: &[u32], report: &mut Report) -> Result<(), AllocError>
    requires { IsTrue (is_line_start report.old) }
    ensures start { OnOk result (IsTrue (is_line_start report.new)) }
    ensures text { OnOk result (report.new ≡ report.old ++ line_text (map decimal numbers.now)) }
{
    printed_line();
    for number in numbers {
        report.num(u64::from(*number))?;
    }
    report.end_line()
}

/// Each number on a line of its own.
pub fn print_numbers(numbers: &[u32], report: &mut Report) -> Result<(), AllocError>
    requires { IsTrue (is_line_start report.old) }
    ensures start { OnOk result (IsTrue (is_line_start report.new)) }
    ensures text { OnOk result (report.new ≡ report.old ++ text_of_lines (map (λ v. decimal v ∷ []) numbers.now)) }
{
    printed_lines();
    for number in numbers {
        report.line(&[Number(u64::from(*number))])?;
    }
    Ok(())
}

/// The last line.
pub fn print_end(report: &mut Report) -> Result<(), AllocError>
    requires { IsTrue (is_line_start report.old) }
    ensures { OnOk result (report.new ≡ report.old ++ line_text (codes "end" ∷ [])) }
{
    report.line(&[Word("end")])
}

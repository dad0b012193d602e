//! Printing of certificates, line by line.

ghost use Rattle.std.specs.Prelude.{◌≡◌, ◌++◌, [], ◌∷◌, length, take, codes, IsTrue, OnOk, OnErr};
ghost use Rattle.mp_text.specs.Report.{is_line_start, text_of_lines};
ghost use Rattle.file_frame.specs.Printed.{end_line};
ghost use Rattle.fences.specs.Certificates.{room_of};
ghost use Rattle.fence_files.specs.Printed.{count_of, number_lines, fence_lines, worker_lines, list_lines, body_lines, fences_text};

use crate::NoMemory;
use fences::{Fence, FenceCertificate, Workers};
use file_frame::{Version, print_end, print_header, print_section};
use mp_text::laws::printed_lines;
use mp_text::{Report, Token};

// How many workers there are, 0 for any number.
fn count_of(workers: Workers) -> u32
    ensures { result ≡ count_of workers }
{
    match workers {
        Workers::Any => 0,
        Workers::AtMost { count, .. } => count,
    }
}

// What is set aside for each worker.
fn room_of(workers: Workers) -> u64
    ensures { result ≡ room_of workers }
{
    match workers {
        Workers::Any => 0,
        Workers::AtMost { room, .. } => room,
    }
}

// How many workers there are, and what is set aside for each.
fn print_workers(workers: Workers, report: &mut Report) -> Result<(), NoMemory>
    requires { IsTrue (is_line_start report.old) }
    ensures ok { OnOk result (report.new ≡ report.old ++ text_of_lines (worker_lines workers)) }
    ensures start { OnOk result (IsTrue (is_line_start report.new)) }
    ensures err { OnErr result (take (length report.old) report.new ≡ report.old) }
{
    printed_lines();
    print_section("workers", u64::from(count_of(workers)), report)?;
    print_section("room", room_of(workers), report)
}

// How many joins there are, and the place of the item of each on a line.
fn print_joins(joins: &[u32], report: &mut Report) -> Result<(), NoMemory>
    requires { IsTrue (is_line_start report.old) }
    ensures ok { OnOk result (report.new ≡ report.old ++ text_of_lines (number_lines (codes "joins") joins.now)) }
    ensures start { OnOk result (IsTrue (is_line_start report.new)) }
    ensures err { OnErr result (take (length report.old) report.new ≡ report.old) }
{
    printed_lines();
    print_section("joins", joins.len() as u64, report)?;
    for place in joins {
        report.line(&[Token::Number(u64::from(*place))])?;
    }
    Ok(())
}

// How many fences there are, and each on a line.
fn print_fence_lines(fences: &[Fence], report: &mut Report) -> Result<(), NoMemory>
    requires { IsTrue (is_line_start report.old) }
    ensures ok { OnOk result (report.new ≡ report.old ++ text_of_lines (fence_lines fences.now)) }
    ensures start { OnOk result (IsTrue (is_line_start report.new)) }
    ensures err { OnErr result (take (length report.old) report.new ≡ report.old) }
{
    printed_lines();
    print_section("fences", fences.len() as u64, report)?;
    for fence in fences {
        report.line(&[
            Token::Number(u64::from(fence.from)),
            Token::Number(u64::from(fence.to)),
        ])?;
    }
    Ok(())
}

// How many amounts there are, and each on a line.
fn print_amounts(amounts: &[u64], report: &mut Report) -> Result<(), NoMemory>
    requires { IsTrue (is_line_start report.old) }
    ensures ok { OnOk result (report.new ≡ report.old ++ text_of_lines (number_lines (codes "amounts") amounts.now)) }
    ensures start { OnOk result (IsTrue (is_line_start report.new)) }
    ensures err { OnErr result (take (length report.old) report.new ≡ report.old) }
{
    printed_lines();
    print_section("amounts", amounts.len() as u64, report)?;
    for amount in amounts {
        report.line(&[Token::Number(*amount)])?;
    }
    Ok(())
}

// The lines after those of the fences.
fn print_last(amounts: &[u64], report: &mut Report) -> Result<(), NoMemory>
    requires { IsTrue (is_line_start report.old) }
    ensures ok { OnOk result
        (report.new ≡ report.old ++ text_of_lines (number_lines (codes "amounts") amounts.now ++ end_line ∷ [])) }
    ensures err { OnErr result (take (length report.old) report.new ≡ report.old) }
{
    printed_lines();
    print_amounts(amounts, report)?;
    print_end(report)
}

// The lines after those of the joins.
fn print_rest(fences: &[Fence], amounts: &[u64], report: &mut Report) -> Result<(), NoMemory>
    requires { IsTrue (is_line_start report.old) }
    ensures ok { OnOk result (report.new
        ≡ report.old ++ text_of_lines (fence_lines fences.now ++ (number_lines (codes "amounts") amounts.now ++ end_line ∷ []))) }
    ensures err { OnErr result (take (length report.old) report.new ≡ report.old) }
{
    printed_lines();
    print_fence_lines(fences, report)?;
    print_last(amounts, report)
}

// The lines from `joins J` on.
fn print_lists(certificate: &FenceCertificate, report: &mut Report) -> Result<(), NoMemory>
    requires { IsTrue (is_line_start report.old) }
    ensures ok { OnOk result (report.new ≡ report.old ++ text_of_lines (list_lines certificate.now)) }
    ensures err { OnErr result (take (length report.old) report.new ≡ report.old) }
{
    printed_lines();
    print_joins(&certificate.joins, report)?;
    print_rest(&certificate.fences, &certificate.amounts, report)
}

// The lines from `workers W` on.
fn print_told(certificate: &FenceCertificate, report: &mut Report) -> Result<(), NoMemory>
    requires { IsTrue (is_line_start report.old) }
    ensures ok { OnOk result
        (report.new ≡ report.old ++ text_of_lines (worker_lines certificate.now.workers ++ list_lines certificate.now)) }
    ensures err { OnErr result (take (length report.old) report.new ≡ report.old) }
{
    printed_lines();
    print_workers(certificate.workers, report)?;
    print_lists(certificate, report)
}

// The lines after line 1.
fn print_body(certificate: &FenceCertificate, report: &mut Report) -> Result<(), NoMemory>
    requires { IsTrue (is_line_start report.old) }
    ensures ok { OnOk result (report.new ≡ report.old ++ text_of_lines (body_lines certificate.now)) }
    ensures err { OnErr result (take (length report.old) report.new ≡ report.old) }
{
    printed_lines();
    print_section("bound", certificate.bound, report)?;
    print_told(certificate, report)
}

// Appends the lines, or some bytes.
fn print_lines(certificate: &FenceCertificate, report: &mut Report) -> Result<(), NoMemory>
    requires { IsTrue (is_line_start report.old) }
    ensures ok { OnOk result (report.new ≡ report.old ++ fences_text certificate.now) }
    ensures err { OnErr result (take (length report.old) report.new ≡ report.old) }
{
    printed_lines();
    print_header("fences", Version::One, report)?;
    print_body(certificate, report)
}

/// Appends the lines of a fence file. Linear in the joins, the fences and the amounts.
///
/// Where memory runs out, the report stays as it was.
pub fn print_fences(certificate: &FenceCertificate, report: &mut Report) -> Result<(), NoMemory>
    requires { IsTrue (is_line_start report.old) }
    ensures ok { OnOk result (report.new ≡ report.old ++ fences_text certificate.now) }
    ensures err { OnErr result (report.new ≡ report.old) }
{
    let start = report.len();
    let printed = print_lines(certificate, report);
    if printed.is_err() {
        report.cut(start);
    }
    printed
}

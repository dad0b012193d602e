//! Each public call with rows worked by hand.

ghost use Rattle.std.specs.Prelude.{◌≡◌, ◌+◌, length, nat_lt, [], ◌∷◌};
ghost use Rattle.mp_text.specs.Grammar.{fault, fault_at, test};

use limits::LimitName;
use mp_text::{
    Fault, Layout, Line, Lines, NoMemory, Reader, Refusal, Report, Token, fault, number, read_with,
    signed, tokens,
};
use std::alloc::Global;
use std::test::Fail;

// A format of one or two lines: a third is fault 3, and a file with none is fault 0.
#[derive(Drop)]
struct Few {
    taken: u64,
}

impl Reader for Few {
    type Kind = u8;

    ghost format = { λ _. record {
      line_tests = λ before row. test (nat_lt (length before) 2) (fault 3 row) ∷ [];
      end_tests = λ rows past. test (nat_lt 0 (length rows)) (fault_at past 0) ∷ [];
    } };

    ghost took = { λ reader rows. reader.taken ≡ length rows };

    fn line(&mut self, line: Line<'_>) -> Result<(), Refusal<u8>> {
        if self.taken >= 2 {
            return Err(fault(line.number, 3));
        }
        self.taken += 1;
        Ok(())
    }

    fn end(&mut self, past: u64) -> Result<(), Refusal<u8>> {
        if self.taken == 0 {
            return Err(fault(past, 0));
        }
        Ok(())
    }
}

// A line's number and tokens.
fn list_line(report: &mut Report, line: Line<'_>) -> Result<(), NoMemory> {
    report.num(line.number)?;
    for token in tokens(line.text) {
        report.word(str::from_utf8(token).unwrap_or("?"))?;
    }
    report.end_line()
}

// The number past the last line.
fn list_past(report: &mut Report, past: u64) -> Result<(), NoMemory> {
    report.word("past")?;
    report.num(past)?;
    report.end_line()
}

// The lines that count, as a report: number and tokens of each.
fn listed(alloc: Global, text: &[u8], layout: Layout) -> Result<Report, NoMemory> {
    let mut report = Report::new(alloc);
    let mut lines = Lines::new(text, layout);
    while let Some(line) = lines.next_line() {
        list_line(&mut report, line)?;
    }
    list_past(&mut report, lines.past())?;
    Ok(report)
}

#[test]
fn reads_lines_and_tokens(rt: HostRuntime) -> Result<(), Fail> {
    for (layout, text, expected) in [
        (
            Layout::Commented,
            "tree 1\r\n\tnodes  2 \r\nend",
            "1 tree 1\n2 nodes 2\n3 end\npast 4\n",
        ),
        (
            Layout::Commented,
            "# a\n% b\n\n x#y %z\n",
            "4 x#y %z\npast 5\n",
        ),
        (
            Layout::Banner,
            "%%a b\n# c\n% d\n \ne",
            "1 %%a b\n2 # c\n5 e\npast 6\n",
        ),
        (Layout::Banner, "\n% a\n\n1", "1\n4 1\npast 5\n"),
        (Layout::Banner, "", "past 1\n"),
        (Layout::Commented, "", "past 1\n"),
        (Layout::Commented, "\n", "past 2\n"),
        (Layout::Commented, "a\n\n", "1 a\npast 3\n"),
    ] {
        let report = listed(rt.alloc(), text.as_bytes(), layout)?;
        assert_eq!(rt; report.bytes(), expected.as_bytes(), "at {text:?}");
    }
    Ok(())
}

#[test]
fn gives_raw_lines(rt: HostRuntime) {
    let mut lines = Lines::new(b"% b\n\nlast", Layout::Commented);
    for (line, text) in [(1, "% b"), (2, ""), (3, "last")] {
        let next = lines.raw().expect(&rt, "a line");
        assert_eq!(rt; next.number, line);
        assert_eq!(rt; next.text, text.as_bytes());
    }
    assert!(rt; lines.raw().is_none());
    assert_eq!(rt; lines.past(), 4);
}

#[test]
fn reads_numbers(rt: HostRuntime) {
    // a token, and the number and the signed number that it spells
    for (token, unsigned, with_sign) in [
        ("0", Some(0), Some(0)),
        ("007", Some(7), Some(7)),
        ("-1", None, Some(-1)),
        ("-0", None, Some(0)),
        ("", None, None),
        ("-", None, None),
        ("--1", None, None),
        ("+1", None, None),
        ("1a", None, None),
        ("18446744073709551615", Some(u64::MAX), None),
        ("0018446744073709551615", Some(u64::MAX), None),
        ("18446744073709551616", None, None),
        ("9223372036854775807", Some(u64::MAX / 2), Some(i64::MAX)),
        ("9223372036854775808", Some(u64::MAX / 2 + 1), None),
        ("-9223372036854775808", None, Some(i64::MIN)),
        ("-9223372036854775809", None, None),
    ] {
        assert_eq!(rt; number(token.as_bytes()), unsigned, "at {token}");
        assert_eq!(rt; signed(token.as_bytes()), with_sign, "at {token}");
    }
}

#[test]
fn reads_a_format(rt: HostRuntime) -> Result<(), Fail> {
    for (text, expected) in [
        ("a\n# b\nc", Ok(2)),
        ("a", Ok(1)),
        (
            "a\nb\n\nc\nd",
            Err(Refusal::Format(Fault { line: 4, kind: 3 })),
        ),
        ("# a\n", Err(Refusal::Format(Fault { line: 2, kind: 0 }))),
    ] {
        let read = read_with(text.as_bytes(), Layout::Commented, Few { taken: 0 });
        assert_eq!(rt; read.map(|done| done.taken), expected, "at {text:?}");
    }
    Ok(())
}

// A line, whether it is one token, and its two numbers.
#[rattlefmt::skip]
const TOKENS: &[(&str, bool, Option<[u64; 2]>)] = &[
    ("", false, None),
    (" 7 ", true, None),
    ("7 8", false, Some([7, 8])),
    ("007\t18446744073709551615\r", false, Some([7, u64::MAX])),
    ("7 18446744073709551616", false, None),
    ("-7 8", false, None),
    ("7 8 9", false, None),
];

#[test]
fn counts_tokens(rt: HostRuntime) {
    for (text, one, _numbers) in TOKENS {
        let line = text.as_bytes();
        assert_eq!(rt; tokens(line).one().is_some(), *one, "at {text:?}");
    }
}

#[test]
fn gives_two_numbers(rt: HostRuntime) {
    for (text, _one, numbers) in TOKENS {
        let found = tokens(text.as_bytes()).numbers::<2>();
        assert_eq!(rt; found, *numbers, "at {text:?}");
    }
}

#[test]
fn gives_numbers_one_after_another(rt: HostRuntime) {
    let mut words = tokens(b"3 x 5");
    assert_eq!(rt; words.next_number(), Some(3));
    assert_eq!(rt; words.next_number(), None);
    assert_eq!(rt; words.numbers::<1>(), Some([5]));
}

#[test]
fn prints_lines(rt: HostRuntime) -> Result<(), Fail> {
    let mut report = Report::new(rt.alloc());
    report.line(&[Token::Word("tree"), Token::Number(2)])?;
    report.line(&[])?;
    report.line(&[
        Token::Number(u64::MAX),
        Token::Word("F"),
        Token::Signed(i64::MIN),
    ])?;
    let lines = "tree 2\n\n18446744073709551615 F -9223372036854775808\n";
    assert_eq!(rt; report.bytes(), lines.as_bytes());
    Ok(())
}

// Two lines, after which a third is cut off.
fn cut_back(alloc: Global) -> Result<Report, NoMemory> {
    let mut report = Report::new(alloc);
    report.line(&[Token::Word("tree"), Token::Number(2)])?;
    report.line(&[])?;
    let start = report.len();
    report.line(&[
        Token::Number(u64::MAX),
        Token::Word("F"),
        Token::Signed(i64::MIN),
    ])?;
    report.cut(start);
    Ok(report)
}

// A line of a word and a number, and two numbers of the next.
fn print_words(report: &mut Report) -> Result<(), NoMemory> {
    report.word("peak")?;
    report.num(u64::MAX)?;
    report.end_line()?;
    report.int(i64::MIN)?;
    report.int(7)
}

#[test]
fn prints_words_after_a_cut(rt: HostRuntime) -> Result<(), Fail> {
    let mut report = cut_back(rt.alloc())?;
    print_words(&mut report)?;
    let words = "tree 2\n\npeak 18446744073709551615\n-9223372036854775808 7";
    assert_eq!(rt; report.bytes(), words.as_bytes());
    Ok(())
}

#[test]
fn names_refusals(rt: HostRuntime) -> Result<(), Fail> {
    for (refusal, words) in [
        (fault(3, "header"), "header at line 3"),
        (Refusal::Limit(LimitName::Tasks), "limit tasks"),
        (Refusal::NoMemory, "no memory"),
    ] {
        assert_eq!(rt; format!(in rt.alloc(); "{refusal}")?.as_str(), words);
    }
    Ok(())
}

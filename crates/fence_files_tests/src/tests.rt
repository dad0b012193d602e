use fence_files::{FenceKind, print_fences, read_fences};
use fences::{Fence, FenceCertificate, Workers};
use mp_text::{Report, fault};
use std::alloc::Global;
use std::process::Abort;
use std::test::Fail;

// A certificate for two workers: item 1 has a join, and task 3 waits for task 2.
const TWO: &[u8] =
    b"fences 1\nbound 8\nworkers 2\nroom 1\njoins 1\n1\nfences 1\n2 3\namounts 6\n4\n2\n0\n0\n0\n2\nend\n";

// The greatest numbers that there may be.
const MOST: &[u8] =
    b"fences 1\nbound 18446744073709551615\nworkers 4096\nroom 18446744073709551615\njoins 1\n4294967295\n\
    fences 1\n4294967295 4294967295\namounts 1\n18446744073709551615\nend\n";

const BARE: &[u8] = b"fences 1\nbound 0\nworkers 0\nroom 0\njoins 0\nfences 0\namounts 0\nend\n";

// Comments, blank lines, other spaces and zeros before a number.
const LOOSE: &[u8] =
    b"# a\r\nfences  1 \r\n\n\tbound 00\r\n%\nworkers 000\nroom 0\njoins 00\nfences 0\n\namounts\t0\n end";

fn check_printed(rt: &impl Abort, alloc: Global, text: &[u8], wanted: &[u8]) -> Result<(), Fail> {
    let certificate = read_fences(alloc, text)?;
    let mut report = Report::new(alloc);
    print_fences(&certificate, &mut report)?;
    assert_eq!(rt; report.bytes(), wanted);
    Ok(())
}

// Fence files, and what is printed of what they are read as.
const FILES: [(&[u8], &[u8]); 4] = [(TWO, TWO), (MOST, MOST), (BARE, BARE), (LOOSE, BARE)];

#[test]
fn reads_and_prints(rt: HostRuntime) -> Result<(), Fail> {
    for (text, printed) in FILES {
        check_printed(&rt, rt.alloc(), text, printed)?;
    }
    Ok(())
}

fn check_told(rt: &impl Abort, found: &FenceCertificate, bound: u64, workers: Workers) {
    assert_eq!(rt; found.bound, bound);
    assert_eq!(rt; found.workers, workers);
}

fn check_lists(
    rt: &impl Abort,
    found: &FenceCertificate,
    joins: &[u32],
    fences: &[Fence],
    amounts: &[u64],
) {
    assert_eq!(rt; found.joins.as_slice(), joins);
    assert_eq!(rt; found.fences.as_slice(), fences);
    assert_eq!(rt; found.amounts.as_slice(), amounts);
}

#[test]
fn gives_the_parts(rt: HostRuntime) -> Result<(), Fail> {
    let found = read_fences(rt.alloc(), TWO)?;
    check_told(&rt, &found, 8, Workers::AtMost { count: 2, room: 1 });
    check_lists(
        &rt,
        &found,
        &[1],
        &[Fence { from: 2, to: 3 }],
        &[4, 2, 0, 0, 0, 2],
    );
    Ok(())
}

#[test]
fn gives_any_number_of_workers(rt: HostRuntime) -> Result<(), Fail> {
    let found = read_fences(rt.alloc(), LOOSE)?;
    check_told(&rt, &found, 0, Workers::Any);
    check_lists(&rt, &found, &[], &[], &[]);
    Ok(())
}

// The file is cut off before each of its lines.
#[test]
fn refuses_what_ends_early(rt: HostRuntime) -> Result<(), Fail> {
    let alloc = rt.alloc();
    let ends = [0, 9, 17, 27, 34, 42, 44, 53, 57, 67, 69, 71, 73, 75, 77, 79];
    for (before, bytes) in ends.iter().enumerate() {
        let part = TWO.get(..*bytes).ok_or("a part of the file")?;
        let refusal = fault(before as u64 + 1, FenceKind::NoEnd);
        assert_eq!(rt; read_fences(alloc, part).err(), Some(refusal));
    }
    Ok(())
}

// How a text begins, how it goes on, and the words of its refusal.
const REFUSED: [(&str, &[(&str, &str)]); 5] = [
    (
        "",
        &[
            ("fences 2\n", "header at line 1"),
            ("fences\n", "header at line 1"),
            ("plan 1\n", "header at line 1"),
            ("# a\nfences 01\n", "header at line 2"),
            ("fences 1\nworkers 0\n", "section at line 2"),
            ("fences 1\nbound\n", "section at line 2"),
            ("fences 1\nbound -1\n", "number at line 2"),
            ("fences 1\nbound 18446744073709551616\n", "number at line 2"),
        ],
    ),
    (
        "fences 1\nbound 0\n",
        &[
            ("room 0\n", "section at line 3"),
            ("workers x\n", "number at line 3"),
            ("workers 4097\n", "workers at line 3"),
            ("workers 0\njoins 0\n", "section at line 4"),
            ("workers 0\nroom x\n", "number at line 4"),
            ("workers 0\nroom 1\n", "workers at line 4"),
            ("workers 1\nroom 1\nroom 1\n", "section at line 5"),
        ],
    ),
    (
        "fences 1\nbound 0\nworkers 1\nroom 5\n",
        &[
            ("joins x\n", "number at line 5"),
            ("joins 1000001\n", "limit tasks"),
            ("joins 1\n1 2\n", "join at line 6"),
            ("joins 1\nfences 0\n", "join at line 6"),
            ("joins 1\n0\n", "number at line 6"),
            ("joins 1\n4294967296\n", "number at line 6"),
            ("joins 1\n1\n2\n", "section at line 7"),
        ],
    ),
    (
        "fences 1\nbound 0\nworkers 1\nroom 5\njoins 0\n",
        &[
            ("fences x\n", "number at line 6"),
            ("fences 4000002\n", "limit positions"),
            ("fences 1\n1\n", "fence at line 7"),
            ("fences 1\n1 2 3\n", "fence at line 7"),
            ("fences 1\n1 x\n", "fence at line 7"),
            ("fences 1\n4294967296 1\n", "number at line 7"),
            ("fences 1\n1 4294967296\n", "number at line 7"),
            ("fences 1\n1 2\n3 4\n", "section at line 8"),
        ],
    ),
    (
        "fences 1\nbound 0\nworkers 1\nroom 5\njoins 0\nfences 0\n",
        &[
            ("amounts x\n", "number at line 7"),
            ("amounts 4000002\n", "limit positions"),
            ("amounts 1\n-1\n", "amount at line 8"),
            ("amounts 1\n1 1\n", "amount at line 8"),
            ("amounts 1\nend\n", "amount at line 8"),
            ("amounts 0\nend end\n", "no-end at line 8"),
            ("amounts 0\n1\n", "no-end at line 8"),
            ("amounts 0\nend\n\nend\n", "no-end at line 10"),
        ],
    ),
];

// Why a text of two parts is refused, in words.
fn refusal_of(alloc: Global, start: &str, rest: &'static str) -> Result<String, Fail> {
    let text = format!(in alloc; "{start}{rest}")?;
    let refusal = read_fences(alloc, text.as_bytes()).err().ok_or(rest)?;
    Ok(format!(in alloc; "{refusal}")?)
}

#[test]
fn refuses_with_the_kind_and_the_line(rt: HostRuntime) -> Result<(), Fail> {
    for (start, rows) in REFUSED {
        for (rest, said) in rows {
            let words = refusal_of(rt.alloc(), start, rest)?;
            assert_eq!(rt; words.as_str(), *said, "{start}{rest}");
        }
    }
    Ok(())
}

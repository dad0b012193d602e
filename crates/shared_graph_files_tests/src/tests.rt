//! Graph files of either version, as systems in which an item may have any number of readers.

use mp_system::Task;
use mp_text::Report;
use shared_graph_files::{print_shared_graph, read_shared_graph};
use shared_systems::SharedSystem;
use std::alloc::Global;
use std::process::Abort;
use std::test::Fail;

// Tasks 2 and 3 both read what task 1 makes, and task 4 reads what they make; an input of size 7 that all but task 1 read, and one that
// nobody reads.
const DIAMOND: &str =
    "graph 2\ntasks 4\n0 0 1\n1 0 2\n2 0 3\n2 1 4\nitems 6\n5 1 2 3\n1 2 4\n3 3 4\n2 4\n7 0 2 3 4\n9 0\nend\n";

fn read(alloc: Global, text: &str) -> Result<SharedSystem, Fail> {
    Ok(read_shared_graph(alloc, text.as_bytes())?)
}

fn task(extra: u64, share: u64, time: u64) -> Task {
    Task { extra, share, time }
}

#[test]
fn reads_tasks_in_their_order(rt: HostRuntime) -> Result<(), Fail> {
    let system = read(rt.alloc(), DIAMOND)?;
    let tasks = [task(0, 0, 1), task(1, 0, 2), task(2, 0, 3), task(2, 1, 4)];
    assert_eq!(rt; system.tasks(), tasks.as_slice());
    Ok(())
}

// The item at a place, counted from 0, in words: its size, its producer or 0, and its readers.
fn item_words(alloc: Global, system: &SharedSystem, i: usize) -> Result<String, Fail> {
    let items = system.items();
    if i >= items.len() {
        return Err(Fail::new("there is no such item"));
    }
    let mut words = format!(in alloc; "{} {}", items.size(i), items.producer(i).unwrap_or(0))?;
    for reader in items.readers(i) {
        words.push_str(&format!(in alloc; " {reader}")?)?;
    }
    Ok(words)
}

fn check_items(rt: &impl Abort, alloc: Global, text: &str, expected: &[&str]) -> Result<(), Fail> {
    let system = read(alloc, text)?;
    assert_eq!(rt; system.items().len(), expected.len(), "at {text:?}");
    for (i, words) in expected.iter().enumerate() {
        let found = item_words(alloc, &system, i)?;
        assert_eq!(rt; found.as_str(), *words, "at {text:?}");
    }
    Ok(())
}

#[rattlefmt::skip]
const READ: &[(&str, &[&str])] = &[
    (DIAMOND, &["5 1 2 3", "1 2 4", "3 3 4", "2 4", "7 0 2 3 4", "9 0"]),
    ("graph 2\ntasks 0\nitems 0\nend\n", &[]),
    ("graph 2\ntasks 0\nitems 2\n3 0\n0 0\nend", &["3 0", "0 0"]),
    ("graph 2\ntasks 3\n1 0 1\n2 0 1\n3 0 1\nitems 1\n10 0 1 2 3\nend\n", &["10 0 1 2 3"]),
    ("% a\n\n# b\n graph\t2\r\n#\ntasks 02\n0 0 1\n0 00 1\n \t\nitems 1\n 04 1\t2 \nend \n\n# c\n", &["4 1 2"]),
    ("graph 1\ntasks 2\n0 0 1\n0 0 1\narcs 4\n1 2 5\n0 2 3\n1 0 4\n0 0 6\nend\n", &["5 1 2", "3 0 2", "4 1", "6 0"]),
];

#[test]
fn reads_items_with_their_readers(rt: HostRuntime) -> Result<(), Fail> {
    let alloc = rt.alloc();
    for (text, items) in READ {
        check_items(&rt, alloc, text, items)?;
    }
    Ok(())
}

// The peak of an order of all tasks of a file.
fn check_peak(
    rt: &impl Abort,
    alloc: Global,
    text: &str,
    order: &[u32],
    peak: u64,
) -> Result<(), Fail> {
    let system = read(alloc, text)?;
    let found = system.peak(alloc, order)?;
    assert_eq!(rt; found, peak, "at {text:?}");
    Ok(())
}

#[test]
fn an_item_is_there_once_for_all_readers(rt: HostRuntime) -> Result<(), Fail> {
    let alloc = rt.alloc();
    let once = "graph 2\ntasks 3\n1 0 1\n2 0 1\n3 0 1\nitems 1\n10 0 1 2 3\nend\n";
    check_peak(&rt, alloc, once, &[1, 2, 3], 13)?;
    let for_each = "graph 1\ntasks 3\n1 0 1\n2 0 1\n3 0 1\narcs 3\n0 1 10\n0 2 10\n0 3 10\nend\n";
    check_peak(&rt, alloc, for_each, &[1, 2, 3], 31)
}

// The text of the system that a file states.
fn printed(alloc: Global, text: &str) -> Result<Report, Fail> {
    let system = read(alloc, text)?;
    let mut report = Report::new(alloc);
    print_shared_graph(&system, &mut report)?;
    Ok(report)
}

#[rattlefmt::skip]
const PRINTED: &[(&str, &str)] = &[
    (DIAMOND, DIAMOND),
    ("# a\ngraph 2\ntasks 00\nitems 1\n3\t0 \n\nend", "graph 2\ntasks 0\nitems 1\n3 0\nend\n"),
    (
        "graph 1\ntasks 2\n3 2 1\n0 0 9\narcs 4\n2 1 4\n0 0 7\n2 1 0\n0 2 5\nend\n",
        "graph 2\ntasks 2\n3 2 1\n0 0 9\nitems 4\n4 2 1\n7 0\n0 2 1\n5 0 2\nend\n",
    ),
];

#[test]
fn prints_version_2(rt: HostRuntime) -> Result<(), Fail> {
    let alloc = rt.alloc();
    for (text, expected) in PRINTED {
        let report = printed(alloc, text)?;
        assert_eq!(rt; report.bytes(), expected.as_bytes(), "at {text:?}");
    }
    Ok(())
}

// Why a file is refused, in words.
fn refusal_of(alloc: Global, text: &str) -> Result<String, Fail> {
    match read_shared_graph(alloc, text.as_bytes()) {
        Ok(_) => Err(Fail::new("this file is not refused")),
        Err(refusal) => Ok(format!(in alloc; "{refusal}")?),
    }
}

#[rattlefmt::skip]
const REFUSALS: &[(&str, &str)] = &[
    ("", "no-end at line 1"),
    ("graph\ntasks 0\n", "header at line 1"),
    ("graph 3\ntasks 0\n", "header at line 1"),
    ("# a\ngraph 02\n", "header at line 2"),
    ("graph 2 2\ntasks 0\n", "header at line 1"),
    ("tree 2\ntasks 0\n", "header at line 1"),
    ("graph 2\ntask 1\n", "section at line 2"),
    ("graph 2\ntasks x\n", "number at line 2"),
    ("graph 2\ntasks 1000001\n", "limit tasks"),
    ("graph 2\ntasks 1\n0 0\n", "number at line 3"),
    ("graph 2\ntasks 1\n0 0 0\n", "number at line 3"),
    ("graph 2\ntasks 1\n1099511627777 0 1\n", "limit size"),
    ("graph 2\ntasks 1\n0 0 1099511627777\n", "limit time"),
    ("graph 2\ntasks 1\n0 0 1\narcs 0\nend\n", "section at line 4"),
    ("graph 2\ntasks 1\n0 0 1\nitems\n", "section at line 4"),
    ("graph 2\ntasks 1\n0 0 1\nitems 1 1\n", "section at line 4"),
    ("graph 2\ntasks 0\nitems -1\n", "number at line 3"),
    ("graph 2\ntasks 0\nitems 4000002\n", "limit positions"),
    ("graph 2\ntasks 2\n0 0 1\n0 0 1\nitems 1\n4\n", "number at line 6"),
    ("graph 2\ntasks 2\n0 0 1\n0 0 1\nitems 1\nend\n", "number at line 6"),
    ("graph 2\ntasks 2\n0 0 1\n0 0 1\nitems 1\n4 x\n", "number at line 6"),
    ("graph 2\ntasks 2\n0 0 1\n0 0 1\nitems 1\n4 1 9 x\n", "number at line 6"),
    ("graph 2\ntasks 2\n0 0 1\n0 0 1\nitems 1\n4 1 2 18446744073709551616\n", "number at line 6"),
    ("graph 2\ntasks 2\n0 0 1\n0 0 1\nitems 1\n4 3\n", "item at line 6"),
    ("graph 2\ntasks 2\n0 0 1\n0 0 1\nitems 1\n4 1 3\n", "item at line 6"),
    ("graph 2\ntasks 2\n0 0 1\n0 0 1\nitems 1\n4 1 0\n", "item at line 6"),
    ("graph 2\ntasks 2\n0 0 1\n0 0 1\nitems 1\n4 1 0 2\n", "item at line 6"),
    ("graph 2\ntasks 2\n0 0 1\n0 0 1\nitems 1\n4 1 1 2\n", "item at line 6"),
    ("graph 2\ntasks 2\n0 0 1\n0 0 1\nitems 1\n4 0 1 1\n", "item at line 6"),
    ("graph 2\ntasks 2\n0 0 1\n0 0 1\nitems 2\n4 1 2\n4 0 2 1\n", "item at line 7"),
    ("graph 2\ntasks 2\n0 0 1\n0 0 1\nitems 1\n4 1 4294967298\n", "item at line 6"),
    ("graph 2\ntasks 2\n0 0 1\n0 0 1\nitems 1\n4 4294967297 2\n", "item at line 6"),
    ("graph 2\ntasks 2\n0 0 1\n0 0 1\nitems 1\n1099511627777 1 1\n", "item at line 6"),
    ("graph 2\ntasks 2\n0 0 1\n0 0 1\nitems 1\n1099511627777 1 2\n", "limit size"),
    ("graph 2\ntasks 1\n0 0 1\nitems 0\nend end\n", "section at line 5"),
    ("graph 2\ntasks 1\n0 0 1\nitems 0\n4 0 1\nend\n", "section at line 5"),
    ("graph 2\ntasks 1\n0 0 1\nitems 0\nend\n#\nend\n", "section at line 7"),
    ("graph 2\ntasks 2\n0 0 1\n0 0 1\nitems 2\n4 1 2\n4 2 1\nend\n", "cycle at line 3"),
    ("graph 2\ntasks 3\n0 9 1\n\n0 0 1\n0 0 1\nitems 2\n4 2 3\n0 3 2\nend\n", "cycle at line 5"),
    ("graph 2\ntasks 3\n0 0 1\n0 9 1\n0 0 1\nitems 2\n4 2 3\n4 3 1 2\nend\n", "cycle at line 3"),
    ("graph 2\ntasks 2\n9 1 1\n9 5 1\nitems 1\n4 1 2\nend\n", "share at line 3"),
    ("graph 2\ntasks 2\n0 0 1\n9 5 1\nitems 1\n4 1 2\nend\n", "share at line 4"),
    ("graph 2\ntasks 2\n0 0 1\n3 4 1\nitems 1\n4 1 2\nend\n", "share at line 4"),
    ("graph 2\ntasks 3\n0 0 1\n9 0 1\n9 1 1\nitems 1\n4 1 2 3\nend\n", "share at line 5"),
    ("graph 1\ntasks 2\n0 0 1\n0 0 1\narcs 1\n1 1 4\nend\n", "arc at line 6"),
    ("graph 1\ntasks 2\n0 0 1\n0 0 1\nitems 1\n4 1 2\nend\n", "section at line 5"),
    ("graph 1\ntasks 2\n0 0 1\n9 5 1\narcs 1\n1 2 4\nend\n", "share at line 4"),
];

#[test]
fn refuses_with_the_kind_and_the_line(rt: HostRuntime) -> Result<(), Fail> {
    let alloc = rt.alloc();
    for (text, words) in REFUSALS {
        let found = refusal_of(alloc, text)?;
        assert_eq!(rt; found.as_str(), *words, "at {text:?}");
    }
    Ok(())
}

// The start of a file, which ends after so many lines.
fn check_start(rt: &impl Abort, alloc: Global, start: &str, before: usize) -> Result<(), Fail> {
    let words = format!(in alloc; "no-end at line {}", before.saturating_add(1))?;
    let found = refusal_of(alloc, start)?;
    assert_eq!(rt; found.as_str(), words.as_str());
    Ok(())
}

#[test]
fn a_file_that_ends_early_has_no_end(rt: HostRuntime) -> Result<(), Fail> {
    let (first, rest) = DIAMOND.split_at(8);
    let mut text = String::new(rt.alloc());
    text.push_str(first)?;
    for (after, line) in rest.split_inclusive('\n').enumerate() {
        check_start(&rt, rt.alloc(), &text, after.saturating_add(1))?;
        text.push_str(line)?;
    }
    assert_eq!(rt; text.as_str(), DIAMOND);
    Ok(())
}

#[test]
fn a_share_of_what_the_task_alone_reads_fits(rt: HostRuntime) -> Result<(), Fail> {
    let text = "graph 2\ntasks 3\n0 0 1\n9 0 1\n4 4 1\nitems 2\n4 1 2 3\n4 1 3\nend\n";
    let system = read(rt.alloc(), text)?;
    assert_eq!(rt; system.tasks().len(), 3);
    Ok(())
}

// A text this many times over.
fn push_times(text: &mut String, times: u32, line: &str) -> Result<(), Fail> {
    for _ in 0..times {
        text.push_str(line)?;
    }
    Ok(())
}

// A line whose item all of 4,000 tasks read.
fn long_line(alloc: Global) -> Result<String, Fail> {
    let mut line = format!(in alloc; "1 0")?;
    for reader in 1..4_001 {
        line.push_str(&format!(in alloc; " {reader}")?)?;
    }
    line.push_str("\n")?;
    Ok(line)
}

#[test]
fn ten_million_uses_and_no_more(rt: HostRuntime) -> Result<(), Fail> {
    let alloc = rt.alloc();
    let mut text = format!(in alloc; "graph 2\ntasks 4000\n")?;
    push_times(&mut text, 4_000, "0 0 1\n")?;
    text.push_str("items 2502\n")?;
    push_times(&mut text, 2_500, &long_line(alloc)?)?;
    text.push_str("1 0\n1 0 4000\nend\n")?;
    let found = refusal_of(alloc, &text)?;
    assert_eq!(rt; found.as_str(), "limit uses");
    Ok(())
}

#[test]
fn sizes_up_to_the_limit_together(rt: HostRuntime) -> Result<(), Fail> {
    let mut text = format!(in rt.alloc(); "graph 2\ntasks 1\n1 0 1\nitems 1048576\n")?;
    push_times(&mut text, 1_048_576, "1099511627776 0\n")?;
    text.push_str("end\n")?;
    let found = refusal_of(rt.alloc(), &text)?;
    assert_eq!(rt; found.as_str(), "limit total");
    Ok(())
}

//! The top call over files and a sink in memory: each command once, and what the program cannot be made to do from outside. What the program
//! prints of many files is in `tools/test/reports/`.

mod carrying;
mod commands;
mod faults;
mod large;
mod meeting;
mod planning;
mod statuses;

use mp_outside::{Files, MemFiles, MemSink, NoGate};
use reports::{Status, run_words};
use std::alloc::{AllocError, Global};
use std::process::Abort;
use std::thread::Threads;

// Files by their names, with what they hold.
type Texts = &'static [(&'static str, &'static str)];

// ---- runs

fn files_of(alloc: Global, texts: &[(&str, &str)]) -> Result<MemFiles, AllocError> {
    let mut files = MemFiles::new(alloc)?;
    for (name, text) in texts {
        files.put(name, text.as_bytes())?;
    }
    Ok(files)
}

// The words of a run, which is cut at blanks.
fn words_of(alloc: Global, run: &str) -> Result<Vec<String>, AllocError> {
    let mut words = Vec::new(alloc);
    for word in run.split_whitespace() {
        words.push(String::from_str(alloc, word)?)?;
    }
    Ok(words)
}

fn run_into<R: Threads + Sync, F: Files>(
    rt: &R,
    alloc: Global,
    run: &str,
    files: &mut F,
    sink: &mut MemSink,
) -> Result<Status, AllocError> {
    let words = words_of(alloc, run)?;
    Ok(run_words(rt, alloc, &words, files, sink, &NoGate))
}

// A run ended with this status, and wrote this text.
fn check_end(
    rt: &impl Abort,
    run: &str,
    ended: Status,
    written: &[u8],
    status: Status,
    text: &str,
) {
    assert_eq!(rt; ended, status, "{run}: {text}");
    assert_eq!(rt; written, text.as_bytes(), "{run}: {text}");
}

// Whether a run over these files ends with this status, and writes this text and no more.
fn check_run<R: Threads + Sync + Abort, F: Files>(
    rt: &R,
    alloc: Global,
    run: &str,
    files: &mut F,
    status: Status,
    text: &str,
) -> Result<(), AllocError> {
    let mut sink = MemSink::new(alloc, 1000)?;
    let ended = run_into(rt, alloc, run, files, &mut sink)?;
    check_end(rt, run, ended, sink.written(), status, text);
    Ok(())
}

//! memplan orders tasks so that their temporary data needs as little memory as possible, and proves it.
#![tactic(auto)]

use mp_outside::{NoGate, RealFiles, RealSink};
use reports::{Status, code_of, complaint, run_words};
use std::io::ErrorKind;
use std::process::ExitCode;
use std::{env, io};

// The words after the program's name. Words that are no text ask for nothing that the program does.
fn words_of(rt: &HostRuntime) -> Result<Vec<String>, Status> {
    match env::args(rt) {
        Ok(args) => args
            .skip(1)
            .collect(rt.alloc())
            .map_err(|_| Status::NoMemory),
        Err(error) if error.kind() == ErrorKind::InvalidData => Err(Status::Usage),
        Err(_) => Err(Status::NoMemory),
    }
}

fn main(rt: HostRuntime) -> ExitCode {
    let status = match words_of(&rt) {
        Ok(words) => {
            let mut files = RealFiles::new(&rt);
            let mut sink = RealSink::new(io::writer(&rt));
            run_words(&rt, rt.alloc(), &words, &mut files, &mut sink, &NoGate)
        }
        Err(status) => status,
    };
    if let Some(line) = complaint(status) {
        let _ = eprintln!(rt; "{line}");
    }
    ExitCode::from(code_of(status))
}

//! The program `strymonas`: it makes the devices of the system, runs the command that its words
//! are, and ends with the number of the status. Everything else is in strymonas_run.
#![tactic(auto)]

use std::env;
use std::io::{self, ErrorKind};
use std::process::ExitCode;
use strm_io::{HostFiles, HostSink};
use strymonas_run::{Status, run_words};

/// The number of an end at which a word of the command is no text: it isn't UTF-8. No status has it.
const NO_TEXT: u8 = 20;

/// The number of the end where the words of the command aren't to be had.
fn without_words(fault: &io::Error) -> ExitCode {
    match fault.kind() {
        ErrorKind::OutOfMemory => ExitCode::from(Status::NoMemory.code()),
        _ => ExitCode::from(NO_TEXT),
    }
}

fn main(rt: HostRuntime) -> ExitCode {
    let mut words = Vec::new(rt.alloc());
    let args = match env::args(&rt) {
        Ok(args) => args,
        Err(fault) => return without_words(&fault),
    };
    for word in args.skip(1) {
        if words.push(word).is_err() {
            return ExitCode::from(Status::NoMemory.code());
        }
    }
    let alloc = rt.alloc();
    let mut out = HostSink::new(rt.stdout());
    let mut err = HostSink::new(rt.stderr());
    let mut files = HostFiles::new(rt);
    let status = run_words(alloc, words.as_slice(), &mut files, &mut out, &mut err);
    ExitCode::from(status.code())
}

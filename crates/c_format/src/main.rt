//! The program `c_format`: it lays out a C text of the subset anew.
//!
//! `c_format FILE` writes the layout of the program that the text of the file reads as, and
//! `c_format --check FILE` reads the text alone. It ends with the number of a status as strymonas does, and
//! writes the line of the status to standard error behind its own name: 0 where all was done; 1 where the
//! words are none of these; 2, 6 or 10 where the file is missing, wasn't read or is too long; 3 where the
//! text is refused; 7 where the layout wasn't written; and 8 where memory was refused. It ends with 20, which
//! no status has, and without a line where a word isn't UTF-8.
//!
//! It promises nothing of its own: `loaded_c` of job_files, `print_c` of c_printer and `put_line` of
//! status_lines do. It depends on these, on loop_ir for programs, and on strm_io for the devices of the
//! system.
#![tactic(auto)]

use c_printer::print_c;
use job_files::loaded_c;
use loop_ir::Prog;
use status_lines::{Status, put_line};
use std::alloc::Global;
use std::env;
use std::io::{self, ErrorKind};
use std::process::ExitCode;
use strm_io::{Files, HostFiles, HostSink, Sink, put_all};

/// The number of an end at which a word of the command is no text: it isn't UTF-8. No status has it.
const NO_TEXT: u8 = 20;

/// The number of the end where the words of the command aren't to be had.
fn without_words(fault: &io::Error) -> ExitCode {
    match fault.kind() {
        ErrorKind::OutOfMemory => ExitCode::from(Status::NoMemory.code()),
        _ => ExitCode::from(NO_TEXT),
    }
}

/// Whether the file is only to be read, and its name; none where the words are no command.
fn command(words: &[String]) -> Option<(bool, &str)> {
    match words {
        [name] => Some((false, name.as_str())),
        [option, name] if option.as_str() == "--check" => Some((true, name.as_str())),
        _ => None,
    }
}

/// Writes the layout of a program.
fn write_layout<O: Sink>(alloc: Global, program: &Prog, out: &mut O) -> Status {
    match print_c(alloc, program) {
        Ok(layout) if put_all(out, layout.as_slice()).is_ok() => Status::Done,
        Ok(_) => Status::WriteFault,
        Err(_) => Status::NoMemory,
    }
}

/// Reads the text of a file, and writes its layout unless it is only to be read.
fn format<F: Files, O: Sink>(
    alloc: Global,
    files: &mut F,
    out: &mut O,
    is_check: bool,
    name: &str,
) -> Status {
    match loaded_c(alloc, files, name) {
        Ok(_) if is_check => Status::Done,
        Ok(program) => write_layout(alloc, &program, out),
        Err(status) => status,
    }
}

fn main(rt: HostRuntime) -> ExitCode {
    let alloc = rt.alloc();
    let mut words = Vec::new(alloc);
    let args = match env::args(&rt) {
        Ok(args) => args,
        Err(fault) => return without_words(&fault),
    };
    for word in args.skip(1) {
        if words.push(word).is_err() {
            return ExitCode::from(Status::NoMemory.code());
        }
    }
    let mut out = HostSink::new(rt.stdout());
    let mut err = HostSink::new(rt.stderr());
    let mut files = HostFiles::new(rt);
    let status = match command(words.as_slice()) {
        Some((is_check, name)) => format(alloc, &mut files, &mut out, is_check, name),
        None => Status::Words,
    };
    if !matches!(status, Status::Done) {
        let _written = put_line(&mut err, b"c_format: ", &status);
    }
    ExitCode::from(status.code())
}

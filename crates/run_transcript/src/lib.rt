//! The program run over files in memory, as one text: what the crates of tests compare.
//!
//! It depends on strymonas_run, whose `run_words` it calls, on strm_io for devices over memory and on
//! text_pieces. It promises nothing of its own.
#![tactic(auto)]

use std::alloc::Global;
use strm_io::{MemFiles, MemSink};
use strm_num::NoMemory;
use strymonas_run::run_words;
use text_pieces::{put, put_number};

/// The words as the program gets them.
fn owned(alloc: Global, words: &[&str]) -> Result<Vec<String>, NoMemory> {
    let mut list = Vec::new(alloc);
    for word in words {
        list.push(String::from_str(alloc, word)?)?;
    }
    Ok(list)
}

/// The file `p` with these bytes, and files with these names and texts.
fn files_with(alloc: Global, bytes: &[u8], more: &[(&str, &str)]) -> Result<MemFiles, NoMemory> {
    let mut files = MemFiles::new(alloc);
    files.add("p", bytes)?;
    for (name, text) in more {
        files.add(name, text.as_bytes())?;
    }
    Ok(files)
}

/// What was written, the number of the status in brackets, a blank, and the line.
fn joined(alloc: Global, out: &[u8], code: u8, line: &[u8]) -> Result<Vec<u8>, NoMemory> {
    let mut text = Vec::from_slice(alloc, out)?;
    put(&mut text, b"[")?;
    put_number(&mut text, u64::from(code))?;
    put(&mut text, b"] ")?;
    put(&mut text, line)?;
    Ok(text)
}

/// What comes of the words over the file `p` with these bytes and files with these names and texts: what
/// standard output got, the number of the status in brackets and a blank, and what standard error got. On
/// standard output so many bytes find room, and on standard error so many.
pub fn transcript_over(
    alloc: Global,
    words: &[&str],
    bytes: &[u8],
    more: &[(&str, &str)],
    room: u64,
    line_room: u64,
) -> Result<Vec<u8>, NoMemory> {
    let words = owned(alloc, words)?;
    let mut files = files_with(alloc, bytes, more)?;
    let mut out = MemSink::with_room(alloc, room)?;
    let mut err = MemSink::with_room(alloc, line_room)?;
    let status = run_words(alloc, words.as_slice(), &mut files, &mut out, &mut err);
    joined(alloc, out.bytes(), status.code(), err.bytes())
}

/// The same over the file `p` alone.
pub fn transcript(
    alloc: Global,
    words: &[&str],
    bytes: &[u8],
    room: u64,
    line_room: u64,
) -> Result<Vec<u8>, NoMemory> {
    transcript_over(alloc, words, bytes, &[], room, line_room)
}

/// The transcript of a file that is refused for a reason.
fn refused(alloc: Global, reason: &str) -> Result<Vec<u8>, NoMemory> {
    let mut text = Vec::from_slice(alloc, b"[3] strymonas: refused: ")?;
    put(&mut text, reason.as_bytes())?;
    put(&mut text, b"\n")?;
    Ok(text)
}

/// Whether a command over a file with these bytes does what is wanted. Where it is done, what it writes
/// begins with `want` and nothing stands on standard error; else the file is refused for the reason
/// `want`, and nothing is written.
pub fn is_answered(
    alloc: Global,
    command: &str,
    bytes: &[u8],
    want: &str,
) -> Result<bool, NoMemory> {
    let got = transcript(alloc, &[command, "p"], bytes, 4096, 64)?;
    if got.as_slice().ends_with(b"\n[0] ") {
        return Ok(got.as_slice().starts_with(want.as_bytes()));
    }
    let refused = refused(alloc, want)?;
    Ok(got.as_slice() == refused.as_slice())
}

//! `run` and `exec` of what `compile` wrote do the same at each number of turns.

use run_transcript::{transcript, transcript_over};
use std::alloc::Global;
use strm_num::NoMemory;

/// A text, and the values of its array `a` where it has one.
const PIPELINES: [(&str, Option<&str>); 7] = [
    (
        "input a: array; array a | filter x -> x % 2 == 0 | map x -> x * x | fold 0 with s x -> s + x",
        Some("1 2 3 4"),
    ),
    (
        "zip(range(0, 3) | flatMap i -> (range(0, i)), range(1, 3) | flatMap j -> (range(0, 2) | map k -> j * 10 + k)) | print",
        None,
    ),
    (
        "input a: array; zip(array a | map x -> 10 / x, range(0, 2)) | print",
        Some("5 2 0"),
    ),
    (
        "input a: array; array a | flatMap x -> (array a | map y -> x * 10 + y | take 1) | map z -> z + 1 | print",
        Some("1 2"),
    ),
    (
        "range(0, 1000000) | flatMap i -> (range(0, 1000000)) | take 3 | print",
        None,
    ),
    (
        "zip(unfold 0 with i while true yield i next i + 1, range(0, 2)) | print",
        None,
    ),
    (
        "zip(unfold 0 with i while true yield i next i + 1, range(0, 3) | filter x -> x < 1) | print",
        None,
    ),
];

const TURNS: [&str; 21] = [
    "0", "1", "2", "3", "4", "5", "6", "7", "8", "9", "10", "11", "12", "13", "14", "15", "16",
    "17", "18", "19", "20",
];

/// What comes of running a text with so many turns, by one command or the other.
fn ran(
    alloc: Global,
    command: &str,
    turns: &str,
    text: &[u8],
    input: &str,
    values: Option<&str>,
) -> Result<Vec<u8>, NoMemory> {
    match values {
        Some(values) => {
            let words = [command, "p", "--turns", turns, input];
            transcript_over(alloc, words.as_slice(), text, &[("a", values)], 4096, 64)
        }
        None => transcript(
            alloc,
            [command, "p", "--turns", turns].as_slice(),
            text,
            4096,
            64,
        ),
    }
}

/// Whether both commands do the same with so many turns.
fn agree(
    alloc: Global,
    turns: &str,
    text: &str,
    compiled: &[u8],
    values: Option<&str>,
) -> Result<bool, NoMemory> {
    let of_pipeline = ran(alloc, "run", turns, text.as_bytes(), "a=a", values)?;
    let of_c_text = ran(alloc, "exec", turns, compiled, "a", values)?;
    Ok(of_pipeline.as_slice() == of_c_text.as_slice())
}

#[test]
fn pipelines_run_as_their_c_texts(rt: HostRuntime) {
    for (text, values) in PIPELINES.as_slice() {
        let got = transcript(rt.alloc(), &["compile", "p"], text.as_bytes(), 16_384, 64);
        let got = got.expect(&rt, "memory");
        let compiled = got.as_slice().strip_suffix(b"[0] ").unwrap_or(b"");
        for turns in TURNS.as_slice() {
            let same = agree(rt.alloc(), turns, text, compiled, *values).expect(&rt, "memory");
            assert!(rt; same, "{turns}");
        }
    }
}

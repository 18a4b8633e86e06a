//! The bench: its lines, and its row beside that of its pipeline's lists over a file of the same items.

use bench_pipeline::{bench_text, bench_values};
use run_transcript::{transcript, transcript_over};
use std::alloc::Global;
use strm_num::NoMemory;
use text_pieces::{put, put_number};

const BENCHES: [(&str, &str, &str); 3] = [
    (
        "0",
        "1",
        "items 1\nresult 10245060258 2\nloops 3\nnesting 3\n[0] ",
    ),
    ("0", "0", "items 0\nresult 0 0\nloops 3\nnesting 3\n[0] "),
    (
        "00",
        "00001",
        "items 1\nresult 10245060258 2\nloops 3\nnesting 3\n[0] ",
    ),
];

/// What comes of a bench.
fn benched(alloc: Global, seed: &str, count: &str) -> Result<Vec<u8>, NoMemory> {
    transcript(alloc, ["bench", seed, count].as_slice(), b"", 4096, 64)
}

/// A file of the items of a seed, one in each line.
fn item_file(alloc: Global, seed: u64, count: u64) -> Result<Vec<u8>, NoMemory> {
    let items = bench_values(alloc, seed, count)?;
    let mut file = Vec::new(alloc);
    for item in items.as_slice() {
        put_number(&mut file, *item)?;
        put(&mut file, b"\n")?;
    }
    Ok(file)
}

/// The lines of a bench of so many items by what comes of `model`: the row and the status.
fn lines_by_model(
    alloc: Global,
    items: &str,
    pulls: &str,
    file: &str,
) -> Result<Vec<u8>, NoMemory> {
    let words = ["model", "p", "--pulls", pulls, "a=a"];
    let text = bench_text().as_bytes();
    let listed = transcript_over(alloc, words.as_slice(), text, &[("a", file)], 4096, 64)?;
    let row = listed.as_slice().strip_suffix(b"[0] ").unwrap_or(b"");
    let mut lines = Vec::from_slice(alloc, b"items ")?;
    put(&mut lines, items.as_bytes())?;
    put(&mut lines, b"\nresult ")?;
    put(&mut lines, row)?;
    put(&mut lines, b"loops 3\nnesting 3\n[0] ")?;
    Ok(lines)
}

#[test]
fn benches_write_their_lines(rt: HostRuntime) {
    for (seed, count, want) in BENCHES.as_slice() {
        let got = benched(rt.alloc(), seed, count).expect(&rt, "memory");
        assert!(rt; got.as_slice() == want.as_bytes(), "{seed} {count}");
    }
}

#[test]
fn a_bench_gives_the_row_of_the_lists(rt: HostRuntime) {
    let file = item_file(rt.alloc(), 7, 1000).expect(&rt, "memory");
    let file = std::str::from_utf8(file.as_slice()).unwrap_or("");
    let want = lines_by_model(rt.alloc(), "1000", "1003", file).expect(&rt, "memory");
    let got = benched(rt.alloc(), "7", "1000").expect(&rt, "memory");
    assert!(rt; got.as_slice() == want.as_slice(), "bench 7 1000");
}

#[test]
fn a_bench_gives_the_same_twice(rt: HostRuntime) {
    let once = benched(rt.alloc(), "7", "100000").expect(&rt, "memory");
    let twice = benched(rt.alloc(), "7", "100000").expect(&rt, "memory");
    assert!(rt;
        once.as_slice().ends_with(b"loops 3\nnesting 3\n[0] "),
        "lines"
    );
    assert!(rt; once.as_slice() == twice.as_slice(), "twice");
}

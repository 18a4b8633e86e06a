//! What `check` says of a text: the first fault of its tokens, of its tree or of its kinds with its
//! offset, or its kinds and counts.

use run_transcript::is_answered;
use std::alloc::Global;
use strm_num::NoMemory;
use text_pieces::put;

/// Texts without tokens, or without a tree.
const NO_TREES: [(&str, &str); 17] = [
    ("", "Syntax at 0"),
    ("range(0, 3) | map x -> x + | print", "Syntax at 27"),
    ("range(0, 3) | map x ->", "Syntax at 22"),
    ("range(0, 3)", "Syntax at 11"),
    ("range(0, 3) |", "Syntax at 13"),
    ("range(0, 3) | window 2 | print", "Syntax at 14"),
    ("array a [0] | print", "Syntax at 8"),
    ("range(0, 3) | print | print", "Syntax at 20"),
    ("zip(array a | print, array b) | print", "Syntax at 14"),
    ("input a: 3; array a | print", "Syntax at 9"),
    ("array a | map { x, -> x | print", "Syntax at 19"),
    ("array a | map x -> { x | print", "Syntax at 23"),
    (
        "range(0, 9223372036854775808) | print",
        "NumberTooLarge at 9",
    ),
    ("input a: array;\narray a $", "BadChar at 24"),
    ("# none", "Syntax at 6"),
    ("input least: array; array least | print", "Syntax at 6"),
    ("input a: array; array a || print", "Syntax at 24"),
];

/// Names that are unknown, bound twice, or no array.
const NAMES: [(&str, &str); 8] = [
    ("range(0, 3) | map x -> y | print", "Unknown at 23"),
    ("array a | print", "Unknown at 6"),
    (
        "range(0, 3) | scan x with s x -> s | print",
        "Unknown at 19",
    ),
    (
        "input a: int; input a: array; array a | print",
        "Twice at 20",
    ),
    (
        "zip(range(0, 1), range(0, 1)) | map {x, x} -> x | print",
        "Twice at 40",
    ),
    ("range(0, 3) | fold 0 with s s -> s", "Twice at 28"),
    ("input n: int; array n | print", "NotArray at 20"),
    ("range(0, 3) | map x -> len(x) | print", "NotArray at 27"),
];

/// Parts that are not of the kind that is wanted there.
const KINDS: [(&str, &str); 13] = [
    (
        "input a: array; array a | map x -> x && true | print",
        "Mismatch at 35",
    ),
    (
        "range(0, 3) | scan 0 with s x -> x == 1 | print",
        "Mismatch at 33",
    ),
    (
        "input a: array; range(0, 3) | map x -> a | print",
        "Mismatch at 39",
    ),
    ("range(0, 3) | filter x -> x | print", "Mismatch at 26"),
    (
        "range(0, 3) | takeWhile x -> x + 1 | print",
        "Mismatch at 29",
    ),
    ("range(0, 3) | take true | print", "Mismatch at 19"),
    (
        "unfold 0 with s while s yield s next s | print",
        "Mismatch at 22",
    ),
    ("range(true / 2, 1) | print", "Mismatch at 6"),
    (
        "range(0, 3) | filter x -> x == true | print",
        "Mismatch at 31",
    ),
    (
        "range(0, 3) | map x -> if x then 1 else 2 | print",
        "Mismatch at 26",
    ),
    (
        "range(0, 3) | map x -> if x < 1 then 1 else false | print",
        "Mismatch at 44",
    ),
    ("range(0, 3) | map x -> -(x == 1) | print", "Mismatch at 24"),
    ("range(0, 3) | map x -> !x | print", "Mismatch at 24"),
];

/// Rows and patterns that are too wide, or not as wide as what they bind or follow.
const WIDTHS: [(&str, &str); 4] = [
    (
        "range(0, 1) | map x -> {x, x, x, x, x, x, x, x, x} | print",
        "TooWide at 48",
    ),
    (
        "zip(range(0, 1) | map x -> {x, x, x, x, x}, range(0, 1) | map x -> {x, x, x, x}) | print",
        "TooWide at 0",
    ),
    (
        "range(0, 3) | map {x, y} -> x | print",
        "WidthMismatch at 18",
    ),
    (
        "range(0, 3) | scan 0 with s x -> {s, x} | print",
        "WidthMismatch at 33",
    ),
];

/// Divisions where a stage or a source opens.
const OPENINGS: [(&str, &str); 4] = [
    ("range(0, 10 / 2) | print", "DivisionInOpening at 12"),
    (
        "range(0, 3) | drop 4 % 2 | print",
        "DivisionInOpening at 21",
    ),
    (
        "unfold 0 with s while s / 2 < 3 yield s next s + 1 | print",
        "DivisionInOpening at 24",
    ),
    (
        "range(0, 3) | fold 1 / 1 with s x -> s",
        "DivisionInOpening at 21",
    ),
];

/// Texts without a fault.
const TYPED: [(&str, &str); 6] = [
    (
        "range(0, 1) | map x -> {x, x, x, x, x, x, x, x} | print",
        "kinds ",
    ),
    ("range(0, 3) | map x -> x / 2 | print", "kinds "),
    (
        "input x: array; range(0, 3) | map x -> x + 1 | print",
        "kinds ",
    ),
    (
        "range(0, 1) | map x -> x == 0 | flatMap x -> (range(0, 1) | map x -> x + 1) | print",
        "kinds ",
    ),
    (
        "range(0, 1) | map x -> x == 0 | flatMap x -> (range(0, 1) | filter y -> x) | print",
        "kinds ",
    ),
    (
        "input n: int; range(0, n) | fold {0, true} with {s, b} x -> {s + x, b && x < n}",
        "kinds ",
    ),
];

#[test]
fn each_text_has_its_answer(rt: HostRuntime) {
    for table in [
        NO_TREES.as_slice(),
        NAMES.as_slice(),
        KINDS.as_slice(),
        WIDTHS.as_slice(),
        OPENINGS.as_slice(),
        TYPED.as_slice(),
    ] {
        for (text, want) in table {
            let is_so = is_answered(rt.alloc(), "check", text.as_bytes(), want).expect(
                &rt, "memory",
            );
            assert!(rt; is_so, "{text}: {want}");
        }
    }
}

#[test]
fn bytes_that_are_no_text(rt: HostRuntime) {
    let bytes = b"input \xff: array;";
    let is_so = is_answered(rt.alloc(), "check", bytes, "NotUtf8 at 6").expect(&rt, "memory");
    assert!(rt; is_so);
}

/// A prefix, so many times a part, a middle, as often another part, and an end.
fn repeated(alloc: Global, parts: &[&str; 5], times: u32) -> Result<Vec<u8>, NoMemory> {
    let mut text = Vec::new(alloc);
    put(&mut text, parts[0].as_bytes())?;
    for _ in 0..times {
        put(&mut text, parts[1].as_bytes())?;
    }
    put(&mut text, parts[2].as_bytes())?;
    for _ in 0..times {
        put(&mut text, parts[3].as_bytes())?;
    }
    put(&mut text, parts[4].as_bytes())?;
    Ok(text)
}

/// Whether `check` says this of a text of repeated parts.
fn is_repeated_answered(
    alloc: Global,
    parts: &[&str; 5],
    times: u32,
    want: &str,
) -> Result<bool, NoMemory> {
    let text = repeated(alloc, parts, times)?;
    is_answered(alloc, "check", text.as_slice(), want)
}

/// Parts, how often, and what `check` says.
type Repeated = (&'static [&'static str; 5], u32, &'static str);

const DEEP: [&str; 5] = ["range(0, ", "(", "1", ")", ") | print"];

const ZIPS: [&str; 5] = ["", "zip(", "array a", ", array b)", " | print"];

const FLAT: [&str; 5] = ["array a", " | flatMap x -> (array a", "", ")", " | print"];

const INTS: [&str; 5] = ["", "input a: int; ", "array a", "", " | print"];

const DROPS: [&str; 5] = ["range(0, 3)", " | drop 1", "", "", " | print"];

const ROWS: [&str; 5] = ["range(0, 3) | map x -> { 1", ",1", "", "", " } | print"];

const ENDS: [&str; 5] = ["range(0, 1) | map x -> {", "x,", "x} | print", "", ""];

const BLANKS: [&str; 5] = ["", " ", "", "", ""];

/// Texts at the limits.
const LIMITS: [Repeated; 14] = [
    (&DEEP, 199, "kinds int\nops 2\nnodes 2\ndepth 1\n"),
    (&DEEP, 200, "TooDeep at 208"),
    (&ZIPS, 15, "Unknown at 66"),
    (&ZIPS, 16, "TooDeep at 60"),
    (&FLAT, 16, "TooDeep at 370"),
    (&INTS, 16, "Twice at 20"),
    (&INTS, 17, "TooManyInputs at 224"),
    (&DROPS, 126, "kinds int\nops 128\nnodes 128\n"),
    (&DROPS, 127, "TooManyOps at 1157"),
    (&ROWS, 8189, "TooWide at 41"),
    (&ROWS, 8190, "TooManyNodes at 16405"),
    (&ENDS, 8189, "TooWide at 40"),
    (&ENDS, 8190, "TooManyNodes at 16404"),
    (&BLANKS, 65_536, "Syntax at 65536"),
];

#[test]
fn a_text_has_limits(rt: HostRuntime) {
    for (parts, times, want) in LIMITS.as_slice() {
        let is_so = is_repeated_answered(rt.alloc(), parts, *times, want).expect(&rt, "memory");
        assert!(rt; is_so, "{want}");
    }
}

/// Texts with their kinds and counts, which are worked out by hand. The first is a nested `zip` of two
/// streams that skip.
const COUNTED: [(&str, &str); 4] = [
    (
        "zip(range(0, 3) | flatMap i -> (range(0, i)), range(1, 3) | flatMap j -> (range(0, 2) | map k -> j * 10 + k)) | print",
        "kinds int int\nops 9\nnodes 13\ndepth 3\nloops 3\nnesting 3\nvariables at most 314\nstatements at most 904\n",
    ),
    (
        "input größe: array;\narray größe | print\n",
        "kinds int\nops 2\nnodes 0\ndepth 0\nloops 1\nnesting 1\nvariables at most 72\nstatements at most 144\n",
    ),
    (
        "range(0, 3) | fold {0, true} with {s, t} x -> {s + x, t && x < 2}",
        "kinds int bool\nops 2\nnodes 12\ndepth 3\nloops 1\nnesting 1\nvariables at most 90\nstatements at most 432\n",
    ),
    (
        "zip(range(0, 3), range(1, 3)) | fold {0, false} with {s, l} {x, y} -> {s + x, x < y}",
        "kinds int bool\nops 4\nnodes 12\ndepth 2\nloops 1\nnesting 1\nvariables at most 148\nstatements at most 560\n",
    ),
];

#[test]
fn a_text_has_its_counts(rt: HostRuntime) {
    for (text, want) in COUNTED.as_slice() {
        let is_so = is_answered(rt.alloc(), "check", text.as_bytes(), want).expect(&rt, "memory");
        assert!(rt; is_so, "{text}");
    }
}

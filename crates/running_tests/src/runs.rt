//! Runs: pipelines by their loops and as lists, and C texts, over files of values.

use run_transcript::{transcript, transcript_over};
use std::alloc::Global;
use strm_num::NoMemory;
use text_pieces::put;

/// A text, the files beside it, the words, and what comes of them.
type Row<'a> = (&'a str, &'a [(&'a str, &'a str)], &'a [&'a str], &'a str);

const EVEN_SQUARES: &str =
    "input a: array; array a | filter x -> x % 2 == 0 | map x -> x * x | fold 0 with s x -> s + x";

const DOT_PRODUCT: &str =
    "input a: array; input b: array; zip(array a, array b) | map {x, y} -> x * y | fold 0 with s p -> s + p";

const TWO_NESTS: &str =
    "zip(range(0, 3) | flatMap i -> (range(0, i)), range(1, 3) | flatMap j -> (range(0, 2) | map k -> j * 10 + k)) | print";

const TRAP_IN_LEFT: &str = "input a: array; zip(array a | map x -> 10 / x, range(0, 2)) | print";

const TRAP_IN_RIGHT: &str = "input a: array; zip(range(0, 2), array a | map x -> 10 / x) | print";

const NEVER_BELOW: &str =
    "unfold 0 with i while true yield i next i + 1 | filter i -> i < 0 | print";

const PAIRS: &str =
    "input a: array; array a | flatMap x -> (array a | map y -> x * 10 + y | take 1) | map z -> z + 1 | print";

const ENDLESS_LEFT: &str =
    "zip(unfold 0 with i while true yield i next i + 1, range(0, 2)) | print";

const SKIPPING_RIGHT: &str =
    "zip(unfold 0 with i while true yield i next i + 1, range(0, 3) | filter x -> x < 1) | print";

const EMPTY_LEFT: &str =
    "zip(range(0, 0), unfold 0 with i while true yield i next i + 1 | filter i -> i < 0) | print";

const NEVER_RIGHT: &str =
    "zip(range(0, 1), unfold 0 with i while true yield i next i + 1 | filter i -> i < 0) | print";

const PLAIN: &str = "input a: array; array a | print";

const INVOICE: &str =
    "input price: array;\ninput qty: array;\ninput floor: int;\nzip(array price, array qty)\n| filter {p, q} -> p >= floor          # ignore the cheap ones\n| fold {0, 0} with {n, t} {p, q} -> {n + 1, t + p * q}\n";

const INVOICE_FILES: [(&str, &str); 2] = [("x", "250 1999 120 4500"), ("y", "4 1 10 2")];

const FOUR: [(&str, &str); 1] = [("a", "1 2 3 4")];

const FIVE_TWO_ZERO: [(&str, &str); 1] = [("a", "5 2 0")];

const RUNS: [Row; 31] = [
    (EVEN_SQUARES, &FOUR, &["run", "p", "a=a"], "20\n[0] "),
    (EVEN_SQUARES, &[("a", "")], &["run", "p", "a=a"], "0\n[0] "),
    (
        DOT_PRODUCT,
        &[("a", "1 2 3"), ("b", "4 5")],
        &["run", "p", "b=b", "a=a"],
        "14\n[0] ",
    ),
    (TWO_NESTS, &[], &["run", "p"], "0 10\n0 11\n1 20\n[0] "),
    (
        TRAP_IN_LEFT,
        &FIVE_TWO_ZERO,
        &["run", "p", "a=a"],
        "2 0\n5 1\n[4] strymonas: trap\n",
    ),
    (
        TRAP_IN_RIGHT,
        &FIVE_TWO_ZERO,
        &["run", "p", "a=a"],
        "0 2\n1 5\n[0] ",
    ),
    (
        "input a: array; array a | map x -> 10 / x | take 2 | print",
        &FIVE_TWO_ZERO,
        &["run", "p", "a=a"],
        "2\n5\n[0] ",
    ),
    (
        NEVER_BELOW,
        &[],
        &["run", "p", "--turns", "1000"],
        "[5] strymonas: spent: 1000\n",
    ),
    (
        "input a: array; array a | map x -> {x / -1, x % -1} | print",
        &[("a", "-9223372036854775808")],
        &["run", "p", "a=a"],
        "-9223372036854775808 0\n[0] ",
    ),
    (
        "input a: array; array a | map x -> {x / 2, x % 2, x / -2, x % -2} | print",
        &[("a", "-7 7")],
        &["run", "p", "a=a"],
        "-3 -1 3 -1\n3 1 -3 1\n[0] ",
    ),
    (
        "unfold 0 with i while true yield i next i + 1 | take -1 | print",
        &[],
        &["run", "p", "--turns", "4"],
        "[0] ",
    ),
    (
        "unfold 0 with i while true yield i next i + 1 | take 0 | print",
        &[],
        &["run", "p", "--turns", "4"],
        "[0] ",
    ),
    (
        "range(0, 3) | drop 5 | print",
        &[],
        &["run", "p", "--turns", "4"],
        "[0] ",
    ),
    (PAIRS, &[("a", "1 2")], &["run", "p", "a=a"], "12\n22\n[0] "),
    (
        PLAIN,
        &[("a", "7 8 9")],
        &["run", "p", "--turns", "4", "a=a"],
        "7\n8\n9\n[0] ",
    ),
    (
        PLAIN,
        &[("a", "7 8 9")],
        &["run", "p", "--turns", "3", "a=a"],
        "7\n8\n9\n[0] ",
    ),
    (
        PLAIN,
        &[("a", "7 8 9")],
        &["run", "p", "--turns", "2", "a=a"],
        "7\n8\n[5] strymonas: spent: 2\n",
    ),
    (PLAIN, &[("a", "")], &["run", "p", "a=a"], "[0] "),
    (
        "input a: array; array a | map x -> if x == 0 then 0 else 10 / x | print",
        &[("a", "0 5")],
        &["run", "p", "a=a"],
        "0\n2\n[0] ",
    ),
    (
        "range(0, 1) | map x -> 9223372036854775807 + 1 + x | print",
        &[],
        &["run", "p"],
        "-9223372036854775808\n[0] ",
    ),
    (
        "input a: array; array a | scan 0 with s x -> s + x | takeWhile s -> s < 8 | drop 1 | print",
        &[("a", "3 1 4 1")],
        &["run", "p", "a=a"],
        "4\n[0] ",
    ),
    (
        "unfold {0, 1} with {p, q} while p < 30 yield p next {q, p + q} | print",
        &[],
        &["run", "p"],
        "0\n1\n1\n2\n3\n5\n8\n13\n21\n[0] ",
    ),
    (
        "range(0, 3) | map x -> {x > 0, x != 2} | print",
        &[],
        &["run", "p"],
        "0 1\n1 1\n1 0\n[0] ",
    ),
    (
        "input a: array; array a | fold 1 with s x -> s / x",
        &[("a", "2 0")],
        &["run", "p", "a=a"],
        "[4] strymonas: trap\n",
    ),
    (
        INVOICE,
        &INVOICE_FILES,
        &["run", "p", "floor=200", "price=x", "qty=y"],
        "3 11999\n[0] ",
    ),
    (
        "input größe: array; array größe | print",
        &[("a", "5")],
        &["run", "p", "größe=a"],
        "5\n[0] ",
    ),
    (
        ENDLESS_LEFT,
        &[],
        &["run", "p", "--turns", "7"],
        "0 0\n1 1\n[0] ",
    ),
    (
        ENDLESS_LEFT,
        &[],
        &["run", "p", "--turns", "2"],
        "0 0\n[5] strymonas: spent: 2\n",
    ),
    (EMPTY_LEFT, &[], &["run", "p", "--turns", "2"], "[0] "),
    (
        NEVER_RIGHT,
        &[],
        &["run", "p", "--turns", "1000"],
        "[5] strymonas: spent: 1000\n",
    ),
    (
        SKIPPING_RIGHT,
        &[],
        &["run", "p", "--turns", "2"],
        "0 0\n[5] strymonas: spent: 2\n",
    ),
];

const LISTS: [Row; 12] = [
    (
        ENDLESS_LEFT,
        &[],
        &["model", "p", "--pulls", "2"],
        "0 0\n1 1\n[5] strymonas: spent: 2\n",
    ),
    (
        ENDLESS_LEFT,
        &[],
        &["model", "p", "--pulls", "3"],
        "0 0\n1 1\n[0] ",
    ),
    (
        TWO_NESTS,
        &[],
        &["model", "p", "--pulls", "2"],
        "0 10\n[5] strymonas: spent: 2\n",
    ),
    (
        TWO_NESTS,
        &[],
        &["model", "p", "--pulls", "3"],
        "0 10\n0 11\n1 20\n[0] ",
    ),
    (
        NEVER_BELOW,
        &[],
        &["model", "p", "--pulls", "1000000"],
        "[12] strymonas: too much\n",
    ),
    (
        NEVER_BELOW,
        &[],
        &["model", "p", "--pulls", "999999"],
        "[5] strymonas: spent: 999999\n",
    ),
    (EMPTY_LEFT, &[], &["model", "p", "--pulls", "0"], "[0] "),
    (
        NEVER_RIGHT,
        &[],
        &["model", "p", "--pulls", "5"],
        "[5] strymonas: spent: 5\n",
    ),
    (
        SKIPPING_RIGHT,
        &[],
        &["model", "p", "--pulls", "2"],
        "0 0\n[5] strymonas: spent: 2\n",
    ),
    (
        SKIPPING_RIGHT,
        &[],
        &["model", "p", "--pulls", "3"],
        "0 0\n[0] ",
    ),
    (
        SKIPPING_RIGHT,
        &[],
        &["run", "p", "--turns", "8"],
        "0 0\n[0] ",
    ),
    (
        TRAP_IN_LEFT,
        &FIVE_TWO_ZERO,
        &["model", "p", "--pulls", "9", "a=a"],
        "2 0\n5 1\n[4] strymonas: trap\n",
    ),
];

const BINDINGS: [Row; 14] = [
    (
        EVEN_SQUARES,
        &FOUR,
        &["run", "p", "a=a", "a=a"],
        "[9] strymonas: bad input: a: twice\n",
    ),
    (
        EVEN_SQUARES,
        &FOUR,
        &["run", "p", "b=a"],
        "[9] strymonas: bad input: b: unknown\n",
    ),
    (
        EVEN_SQUARES,
        &FOUR,
        &["run", "p"],
        "[9] strymonas: bad input: a: absent\n",
    ),
    (
        EVEN_SQUARES,
        &[("a", "1 x")],
        &["run", "p", "a=a"],
        "[9] strymonas: bad input: a: Bad at 2\n",
    ),
    (
        EVEN_SQUARES,
        &[("a", "9223372036854775808")],
        &["run", "p", "a=a"],
        "[9] strymonas: bad input: a: Range at 0\n",
    ),
    (
        EVEN_SQUARES,
        &FOUR,
        &["run", "p", "a=zz"],
        "[2] strymonas: missing: zz\n",
    ),
    (
        EVEN_SQUARES,
        &FOUR,
        &["run", "q", "a=zz"],
        "[2] strymonas: missing: q\n",
    ),
    (
        INVOICE,
        &INVOICE_FILES,
        &["run", "p", "floor=two", "price=x", "qty=y"],
        "[9] strymonas: bad input: floor: not a number\n",
    ),
    (
        PLAIN,
        &[("a", "1\r\n\t2\t\r\n")],
        &["run", "p", "a=a"],
        "1\n2\n[0] ",
    ),
    (
        PLAIN,
        &[("a", "4 -")],
        &["run", "p", "a=a"],
        "[9] strymonas: bad input: a: Bad at 2\n",
    ),
    (
        PLAIN,
        &[("a", "1\0")],
        &["run", "p", "a=a"],
        "[9] strymonas: bad input: a: Bad at 0\n",
    ),
    (
        PLAIN,
        &[("a", "7 1234567890123456789012345")],
        &["run", "p", "a=a"],
        "[9] strymonas: bad input: a: Range at 2\n",
    ),
    (
        PLAIN,
        &[("a", "-0 007")],
        &["run", "p", "a=a"],
        "0\n7\n[0] ",
    ),
    (
        PLAIN,
        &FOUR,
        &["run", "p", "a="],
        "[2] strymonas: missing: \n",
    ),
];

const TEXT_A: &str =
    "#include \"pipeline.h\"\nint pipeline(void) {\n  uint64_t v0 = 0ULL;\n  v0 = (1ULL / 0ULL);\n  return 0;\n}\n";

const TEXT_B: &str =
    "#include \"pipeline.h\"\nint pipeline(uint64_t i0) {\n  EMIT(i0);\n  EMIT((0ULL - 1ULL));\n  return 1;\n  return 0;\n}\n";

const C_TEXTS: [Row; 8] = [
    (TEXT_A, &[], &["exec", "p"], "[11] strymonas: undefined\n"),
    (
        "#include \"pipeline.h\"\nint pipeline(void) {\n  uint64_t v0 = 0ULL;\n  f(v0);\n  return 0;\n}\n",
        &[],
        &["exec", "p"],
        "[3] strymonas: refused: Syntax at 67\n",
    ),
    (
        "#include \"pipeline.h\"\nint pipeline(void) {\n  uint64_t v0 = 0ULL;\n  v0 = 1ULL + 2ULL;\n  return 0;\n}\n",
        &[],
        &["exec", "p"],
        "[3] strymonas: refused: Syntax at 77\n",
    ),
    (
        "#include \"pipeline.h\"\nint pipeline(void) {\n  uint64_t v0 = 0ULL;\n  EMIT(v1);\n  return 0;\n}\n",
        &[],
        &["exec", "p"],
        "[3] strymonas: refused: Unbound at 72\n",
    ),
    (
        TEXT_B,
        &[],
        &["exec", "p", "7"],
        "7 -1[4] strymonas: trap\n",
    ),
    (
        TEXT_B,
        &[],
        &["exec", "p"],
        "[9] strymonas: bad input: 0: absent\n",
    ),
    (
        TEXT_B,
        &[],
        &["exec", "p", "7", "8"],
        "[9] strymonas: bad input: 1: unknown\n",
    ),
    (
        TEXT_B,
        &[],
        &["exec", "p", "--turns", "9", "--turns"],
        "[9] strymonas: bad input: 0: not a number\n",
    ),
];

const REFUSED: [Row; 9] = [
    (
        "input a: array;\narray a | map x -> x && true | print",
        &[],
        &["run", "p"],
        "[3] strymonas: refused: Mismatch at 35\n",
    ),
    (
        "range(0, 10 / 2) | print",
        &[],
        &["run", "p"],
        "[3] strymonas: refused: DivisionInOpening at 12\n",
    ),
    (
        "range(0, 9223372036854775808) | print",
        &[],
        &["run", "p"],
        "[3] strymonas: refused: NumberTooLarge at 9\n",
    ),
    (
        "range(0, 1) | map x -> {x, x, x, x, x, x, x, x, x} | print",
        &[],
        &["run", "p"],
        "[3] strymonas: refused: TooWide at 48\n",
    ),
    (
        "range(0, 1) | map x -> {x, x, x, x, x, x, x, x} | print",
        &[],
        &["run", "p"],
        "0 0 0 0 0 0 0 0\n[0] ",
    ),
    (
        "range(0, 3) | map x -> x + | print",
        &[],
        &["run", "p"],
        "[3] strymonas: refused: Syntax at 27\n",
    ),
    (
        "range(0, 3) | map x ->",
        &[],
        &["run", "p"],
        "[3] strymonas: refused: Syntax at 22\n",
    ),
    (
        "",
        &[],
        &["run", "p"],
        "[3] strymonas: refused: Syntax at 0\n",
    ),
    (
        "range(0, 3) | map x -> y | print",
        &[],
        &["run", "p"],
        "[3] strymonas: refused: Unknown at 23\n",
    ),
];

const WORDS: [&[&str]; 16] = [
    &[],
    &["check", "p", "q"],
    &["run"],
    &["run", "p", "--turns"],
    &["run", "p", "a"],
    &["run", "p", "=a"],
    &["run", "p", "--turns", "18446744073709551616"],
    &["run", "p", "--turns", "-1"],
    &["model", "p"],
    &["model", "p", "--pulls", "x"],
    &["exec"],
    &["exec", "p", "--turns"],
    &["bench", "0"],
    &["bench", "0", "1", "2"],
    &["bench", "0", "1000001"],
    &["bench", "18446744073709551616", "1"],
];

/// A range up to a number in so many parentheses.
fn enclosed(alloc: Global, depth: u64) -> Result<Vec<u8>, NoMemory> {
    let mut text = Vec::from_slice(alloc, b"range(0, ")?;
    for _ in 0..depth {
        put(&mut text, b"(")?;
    }
    put(&mut text, b"1")?;
    for _ in 0..depth {
        put(&mut text, b")")?;
    }
    put(&mut text, b") | print")?;
    Ok(text)
}

/// Whether each row comes out.
fn come_out(alloc: Global, rows: &[Row]) -> Result<bool, NoMemory> {
    for (text, files, words, want) in rows {
        let got = transcript_over(alloc, words, text.as_bytes(), files, 4096, 64)?;
        if got.as_slice() != want.as_bytes() {
            return Ok(false);
        }
    }
    Ok(true)
}

#[test]
fn pipelines_run(rt: HostRuntime) {
    assert!(rt; come_out(rt.alloc(), RUNS.as_slice()).expect(&rt, "memory"));
}

#[test]
fn pipelines_have_lists(rt: HostRuntime) {
    assert!(rt; come_out(rt.alloc(), LISTS.as_slice()).expect(&rt, "memory"));
}

#[test]
fn inputs_are_as_declared(rt: HostRuntime) {
    assert!(rt; come_out(rt.alloc(), BINDINGS.as_slice()).expect(&rt, "memory"));
}

#[test]
fn c_texts_run(rt: HostRuntime) {
    assert!(rt; come_out(rt.alloc(), C_TEXTS.as_slice()).expect(&rt, "memory"));
}

#[test]
fn other_texts_are_refused(rt: HostRuntime) {
    assert!(rt; come_out(rt.alloc(), REFUSED.as_slice()).expect(&rt, "memory"));
}

#[test]
fn expressions_may_be_200_deep(rt: HostRuntime) {
    let text = enclosed(rt.alloc(), 199).expect(&rt, "memory");
    let got = transcript(rt.alloc(), &["run", "p"], text.as_slice(), 64, 64);
    assert!(rt;
        got.expect(&rt, "memory").as_slice() == b"0\n[0] ".as_slice(),
        "199"
    );
    let text = enclosed(rt.alloc(), 200).expect(&rt, "memory");
    let got = transcript(rt.alloc(), &["run", "p"], text.as_slice(), 64, 64);
    assert!(rt;
        got.expect(&rt, "memory").as_slice()
            == b"[3] strymonas: refused: TooDeep at 208\n".as_slice(),
        "200"
    );
}

#[test]
fn other_words_are_no_commands(rt: HostRuntime) {
    for words in WORDS.as_slice() {
        let got = transcript_over(rt.alloc(), words, PLAIN.as_bytes(), &[], 64, 64);
        let got = got.expect(&rt, "memory");
        assert!(rt;
            got.as_slice() == b"[1] strymonas: words\n".as_slice(),
            "words"
        );
    }
}

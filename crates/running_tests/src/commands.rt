//! The commands over one file in memory: what they write, their number, and their line.

use crate::limits::declared_in;
use run_transcript::{is_answered, transcript};
use std::alloc::Global;
use strm_num::NoMemory;
use text_pieces::put;

/// The transcript of `compile`.
fn compiled(alloc: Global, text: &[u8]) -> Result<Vec<u8>, NoMemory> {
    transcript(alloc, &["compile", "p"], text, 4096, 64)
}

const SQUARES: &str = "input a: array;\narray a | map x -> x * x + 1 | print";

const PLAIN: &str = "input a: array;\narray a | print";

/// Whether a text is compiled to a function of one array with so many variables at most.
fn is_compiled(alloc: Global, text: &[u8], most: u32) -> Result<bool, NoMemory> {
    let head = b"#include \"pipeline.h\"\nint pipeline(const uint64_t *a0, uint64_t n0) {\n";
    let got = compiled(alloc, text)?;
    let is_function = got.as_slice().starts_with(head)
        && got.as_slice().ends_with(b"  return 0;\n}\n[0] ");
    Ok(is_function && declared_in(got.as_slice()) <= most)
}

/// Comments, parentheses, a name outside of ASCII and 40 operators. The expression is 41 deep
/// without its parentheses.
fn forty(alloc: Global) -> Result<Vec<u8>, NoMemory> {
    let mut text = Vec::new(alloc);
    put(
        &mut text,
        "# forty\ninput größe: array; # words\narray größe\n".as_bytes(),
    )?;
    put(&mut text, "| map größe -> (größe-1) * (größe)".as_bytes())?;
    for _ in 0..38 {
        put(&mut text, b"+1")?;
    }
    put(&mut text, b" # 38 of these\n| print")?;
    Ok(text)
}

#[test]
fn compiles_with_few_variables(rt: HostRuntime) {
    let long = forty(rt.alloc()).expect(&rt, "memory");
    for (text, most) in [
        (SQUARES.as_bytes(), 122),
        (PLAIN.as_bytes(), 72),
        (long.as_slice(), 350),
    ] {
        let is_so = is_compiled(rt.alloc(), text, most).expect(&rt, "memory");
        assert!(rt; is_so, "{most}");
    }
}

/// Words over a plain text, and what comes of them.
const WORDS: [(&[&str], &str); 10] = [
    (&["compile", "q"], "[2] strymonas: missing: q\n"),
    (&["compile", ""], "[2] strymonas: missing: \n"),
    (&["check", "q"], "[2] strymonas: missing: q\n"),
    (&["check", "p", "q"], "[1] strymonas: words\n"),
    (&["run", "p"], "[9] strymonas: bad input: a: absent\n"),
    (&[], "[1] strymonas: words\n"),
    (&["compile"], "[1] strymonas: words\n"),
    (&["compile", "p", "p"], "[1] strymonas: words\n"),
    (&["Compile", "p"], "[1] strymonas: words\n"),
    (
        &["check", "p"],
        "kinds int\nops 2\nnodes 0\ndepth 0\nloops 1\nnesting 1\nvariables at most 72\nstatements at most 144\n[0] ",
    ),
];

#[test]
fn words_have_their_answer(rt: HostRuntime) {
    for (words, want) in WORDS.as_slice() {
        let got = transcript(rt.alloc(), words, PLAIN.as_bytes(), 256, 64).expect(&rt, "memory");
        assert!(rt; got.as_slice() == want.as_bytes(), "{want}");
    }
}

/// Commands whose output or whose line finds too little room.
const FULL: [(&str, u64, &str); 3] = [
    ("compile", 64, "#incl[7] strymonas: write fault\n"),
    ("check", 64, "kinds[7] strymonas: write fault\n"),
    ("compile", 0, "#incl[7] "),
];

#[test]
fn a_full_output_ends_with_a_prefix(rt: HostRuntime) {
    for (command, room, want) in FULL.as_slice() {
        let words = [*command, "p"];
        let got = transcript(rt.alloc(), &words, SQUARES.as_bytes(), 5, *room).expect(
            &rt, "memory",
        );
        assert!(rt; got.as_slice() == want.as_bytes(), "{want}");
    }
}

#[test]
fn a_text_may_have_65536_bytes(rt: HostRuntime) {
    let blanks = vec![in rt.alloc(); b' '; 65_537].expect(&rt, "memory");
    let long = compiled(rt.alloc(), blanks.as_slice()).expect(&rt, "memory");
    assert!(rt; long.as_slice() == b"[10] strymonas: too long: p\n".as_slice());
    let most = compiled(rt.alloc(), &blanks[1..]).expect(&rt, "memory");
    assert!(rt; most.as_slice() == b"[3] strymonas: refused: Syntax at 65536\n".as_slice());
}

/// Bodies of a map over one array.
const BODIES: [(&str, &str); 25] = [
    ("x", ""),
    ("\t x*x\r\n-x ", ""),
    ("0007 * 9223372036854775807", ""),
    ("9223372036854775808", "NumberTooLarge at 30"),
    ("(x)", ""),
    ("((x) - (1 + x)) * 2", ""),
    ("x + # one\n1", ""),
    ("{x}", ""),
    ("{x, x * x, 3}", ""),
    ("y", "Unknown at 30"),
    ("a", "Mismatch at 30"),
    ("{x, !x}", "Mismatch at 35"),
    ("true", ""),
    ("-x", ""),
    ("x - - 1", ""),
    ("{x / -1, x % -1}", ""),
    ("{x / 2, x % 2, x / -2, x % -2}", ""),
    ("len(a) / (x + 1)", ""),
    ("if x == 0 then 0 else 10 / x", ""),
    ("x > 0 && 10 / x > 1 || !(x <= -5)", ""),
    ("if x then 1 else 2", "Mismatch at 33"),
    ("x < true", "Mismatch at 34"),
    ("(x", "Syntax at 32"),
    ("x x", "Syntax at 32"),
    ("", "Syntax at 30"),
];

fn is_body_answered(alloc: Global, body: &str, reason: &str) -> Result<bool, NoMemory> {
    let mut text = Vec::new(alloc);
    put(&mut text, b"input a: array;array a|map x->")?;
    put(&mut text, body.as_bytes())?;
    put(&mut text, b"|print")?;
    is_answered(alloc, "compile", text.as_slice(), reason)
}

#[test]
fn what_is_built_of_expressions(rt: HostRuntime) {
    for (body, reason) in BODIES.as_slice() {
        let is_so = is_body_answered(rt.alloc(), body, reason).expect(&rt, "memory");
        assert!(rt; is_so, "{body}: {reason}");
    }
}

/// Whole texts.
const TEXTS: [(&str, &str); 25] = [
    ("input a1_: array; array a1_ | map a1_ -> a1_ | print", ""),
    ("input é: array; array é | map x -> x | print", ""),
    ("input a: array; input b: array; array b | print", ""),
    (
        "input a: array; input k: int; array a | map x -> k / x - len(a) | print",
        "",
    ),
    ("input a: array; array a | map {x} -> x | print", ""),
    (
        "input a: array; array a | map x -> {x, x + 1} | map {x, y} -> x * y | print",
        "",
    ),
    ("input a: array; array b | print", "Unknown at 22"),
    ("input a: int; array a | print", "NotArray at 20"),
    (
        "input a: array; input a: int; array a | print",
        "Twice at 22",
    ),
    (
        "input a: array; array a | map {x, y} -> x | print",
        "WidthMismatch at 30",
    ),
    ("array a | print", "Unknown at 6"),
    (
        "input a: array; array a | filter x -> x < 1 | scan 0 with s x -> s + x | print",
        "",
    ),
    (
        "input a: array; array a | drop 1 | takeWhile x -> x > 0 | fold 0 with s x -> s + x",
        "",
    ),
    (
        "unfold 0 with i while true yield i next i + 1 | take 3 | print",
        "",
    ),
    ("range(0, 3) | flatMap i -> (range(0, i)) | print", ""),
    ("zip(range(0, 3), range(1, 4)) | print", ""),
    ("input least: array; array least | print", "Syntax at 6"),
    ("input a: array; array a || print", "Syntax at 24"),
    ("input a: array; array a | print | print", "Syntax at 32"),
    ("inputa: array; array a | print", "Syntax at 0"),
    ("", "Syntax at 0"),
    ("range(0, 3) | print", ""),
    (
        "range(0, 9223372036854775808) | print",
        "NumberTooLarge at 9",
    ),
    ("range(0, 3) | map x ->", "Syntax at 22"),
    ("input a: array;\narray a $", "BadChar at 24"),
];

#[test]
fn what_is_built_of_texts(rt: HostRuntime) {
    for (text, reason) in TEXTS.as_slice() {
        let is_so = is_answered(rt.alloc(), "compile", text.as_bytes(), reason).expect(
            &rt, "memory",
        );
        assert!(rt; is_so, "{text}: {reason}");
    }
}
